// A journal's records as lines that the command reads again as calls, each with its offset and its length behind a `#`.
#![tactic(auto)]

use answers::line::Line;
use journal::place::Place;
use journal::walk::{CommitHead, GossipHead, Record, Step};

// The bytes of a record, its length field among them. The lists are read where all of them is there, which is so in every whole record.
fn commit(record: &[u8], head: CommitHead, at: usize, line: &mut Line) {
    let count = head.count;
    if 16 < count || record.len() != 12 + 10 * count {
        line.clear();
        return;
    }
    let mut objects = [0u64; 16];
    let mut values = [0u64; 16];
    fields::get_column(record, 12, 10, 2, &mut objects[..count]);
    fields::get_column(record, 14, 10, 8, &mut values[..count]);
    let length = record.len() as u64;
    answers::records::commit_line(
        head.stamp,
        &objects[..count],
        &values[..count],
        at as u64,
        length,
        line,
    )
}

fn gossip(record: &[u8], head: GossipHead, at: usize, line: &mut Line) {
    let count = head.count;
    if 16 < count || record.len() != 20 + 8 * count {
        line.clear();
        return;
    }
    let mut stamps = [0u64; 16];
    fields::get_column(record, 20, 8, 8, &mut stamps[..count]);
    let length = record.len() as u64;
    answers::records::gossip_line(
        head.prev,
        head.curr,
        &stamps[..count],
        at as u64,
        length,
        line,
    )
}

fn lay(bytes: &[u8], record: Record, at: usize, line: &mut Line) {
    match record {
        Record::Commit(head) => commit(bytes, head, at, line),
        Record::Gossip(head) => gossip(bytes, head, at, line),
        Record::Flush(head) => {
            answers::records::flush_line(head.page, at as u64, bytes.len() as u64, line)
        }
    }
}

// The place behind the whole record at a place, whose line is laid; none where there is no whole record.
pub fn record_at(journal: &[u8], at: usize, line: &mut Line) -> Option<usize> {
    match journal::reader::read_at(journal, Place { at }) {
        Step::Whole { record, next } if at <= next.at && next.at <= journal.len() => {
            lay(&journal[at..next.at], record, at, line);
            Some(next.at)
        }
        _ => None,
    }
}
