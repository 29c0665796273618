// A request for the stamps that a store missed.
ghost use Rattle.model.specs.Exchange as model;
ghost use Rattle.tables.specs.Contents.{stored};
ghost use Rattle.reads.specs.Read.{Read};

use model::Answer;
use requests::Request;
use tables::Store;

// The request from the horizon to a stamp, at the buffer's front.
pub fn ask(store: &Store, to: u64, buffer: &mut [u8]) -> Answer
    ensures { Read (model.ask (stored store.now) to buffer.old) result buffer.new }
{
    if damage::damaged(store) {
        return Answer::Damaged;
    }
    if buffer.len() < 19 {
        return Answer::Shape;
    }
    let h = store.heads;
    if to < h.horizon {
        return Answer::Shape;
    }
    let request = Request {
        from: h.horizon,
        to,
    };
    request.write(buffer);
    Answer::Done(19)
}
