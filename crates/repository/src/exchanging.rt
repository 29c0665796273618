// The faces of the exchange with a coordinator: a request for what the store missed, and a message as bytes.
ghost use Rattle.model.specs.Exchange as model;
ghost use Rattle.tables.specs.Contents.{stored};
ghost use Rattle.repository.specs.Faces.{Shown, Changed};

use crate::{Moved, Reply, Store};
use exchange::{asking, hearing};
use journal::place::Place;

// The request from the horizon to a stamp, at the buffer's front.
#[unsafe(no_mangle)]
pub extern "C" fn jibcradle_ask(store: &Store, to: u64, buffer: &mut [u8]) -> Reply
    ensures { Shown (model.ask (stored store.now) to buffer.old) result buffer.new }
{
    Reply::from(asking::ask(store, to, buffer))
}

// Takes the bytes of a message as gossip.
#[unsafe(no_mangle)]
pub extern "C" fn jibcradle_hear(
    store: &mut Store,
    journal: &mut [u8],
    used: usize,
    message: &[u8],
) -> Moved
    ensures { Changed (model.hear (stored store.old) journal.old used message.now) result (stored store.new) journal.new }
{
    let used = Place { at: used };
    Moved::from(hearing::hear(store, journal, used, message))
}
