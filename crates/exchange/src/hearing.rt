// The bytes of a gossip message, taken as gossip.
ghost use Rattle.std.specs.Prelude.{◌≡◌, true, ◌≤◌, ◌+◌, ◌*◌, length, take, drop};
ghost use Rattle.model.specs.Bytes.{from_be, column};
ghost use Rattle.model.specs.Exchange as model;
ghost use Rattle.tables.specs.Contents.{stored};
ghost use Rattle.changes.specs.Left.{Left, Made};
ghost use Rattle.changes.specs.Kept.{GossipKept};
ghost use Rattle.exchange.specs.Messages.{framed_b, Spoken};

use changes::settling::Changed;
use journal::kind::Kind;
use journal::place::{COUNT_AT, CURR_AT, KIND_AT, PREV_AT, Place, STAMPS_AT};
use journal::walk::GossipHead;
use model::Answer;
use tables::Store;

// The number of eight bytes, read as two of four: the compiler makes one load of it.
fn word_at(bytes: &[u8], at: usize) -> u64
    requires { at + 8 ≤ length bytes.now }
    ensures { result ≡ from_be (take 8 (drop at bytes.now)) }
{
    let high = fields::get_be(bytes, at, 4);
    let low = fields::get_be(bytes, at + 4, 4);
    high * 4294967296 + low
}

// One whole record of kind 2 and nothing else, of at most sixteen stamps, whatever they are.
fn framed(bytes: &[u8]) -> bool
    ensures { result ≡ framed_b bytes.now }
{
    if bytes.len() < STAMPS_AT {
        return false;
    }
    let length = fields::get_be(bytes, 0, 2) as usize;
    if length != bytes.len() - 2 {
        return false;
    }
    if bytes[KIND_AT] != Kind::Gossip as u8 {
        return false;
    }
    let count = bytes[COUNT_AT] as usize;
    if 16 < count {
        return false;
    }
    bytes.len() == STAMPS_AT + 8 * count
}

// Stamps, one behind another.
fn read_stamps(bytes: &[u8], out: &mut [u64])
    requires { 20 + 8 * length out.old ≤ length bytes.now }
    ensures { out.new ≡ column 8 8 (length out.old) (drop 20 bytes.now) }
{
    for (i, stamp) in out.iter_mut().enumerate() {
        *stamp = word_at(bytes, STAMPS_AT + 8 * i);
    }
}

// The head of a message that has a frame, and its stamps, unjudged, at the list's front. The two numbers are read last: before the loop the compiler would
// load them byte by byte.
fn read_message(bytes: &[u8], stamps: &mut [u64]) -> GossipHead
    requires { (framed_b bytes.now ≡ true) × (length stamps.old ≡ 16) }
    ensures { Spoken bytes.now result stamps.new }
{
    let count = bytes[COUNT_AT] as usize;
    read_stamps(bytes, &mut stamps[..count]);
    let prev = word_at(bytes, PREV_AT);
    let curr = word_at(bytes, CURR_AT);
    GossipHead { prev, curr, count }
}

// What the bytes tell is taken as gossip is, in the same order; bytes that are no message are refused before the journal's shape is asked.
fn heard(
    store: &mut Store,
    journal: &mut [u8],
    used: Place,
    message: &[u8],
) -> Result<Place, Answer>
    ensures made { Made (model.hear (stored store.old) journal.old used.at message.now) result (stored store.new) journal.new used.at }
    ensures kept { GossipKept store.old store.new }
{
    if damage::damaged(store) {
        return Err(Answer::Damaged);
    }
    if !framed(message) {
        return Err(Answer::Malformed(0));
    }
    let mut room = [0u64; 16];
    let head = read_message(message, &mut room);
    let stamps = &room[..head.count];
    if !rules::stamps_shaped(head.prev, head.curr, stamps) {
        return Err(Answer::Malformed(0));
    }
    if !changes::settling::journal_shaped(journal, used) {
        return Err(Answer::Shape);
    }
    changes::gossiping::take(store, journal, used, head.prev, head.curr, stamps)
}

// Takes the bytes of a message as gossip.
pub fn hear(store: &mut Store, journal: &mut [u8], used: Place, message: &[u8]) -> Changed
    ensures left { Left (model.hear (stored store.old) journal.old used.at message.now) result.answer (stored store.new) journal.new result.place.at }
    ensures kept { GossipKept store.old store.new }
{
    Changed::told(heard(store, journal, used, message), used)
}
