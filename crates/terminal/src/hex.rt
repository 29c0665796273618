// The bytes that a line has as a word of hex digits.
use lines::hex::ROOM;

// The bytes of the word from a place to another, at the front of out: how many. A word that lies beyond the line's end has none.
pub fn bytes_in(line: &[u8], from: usize, to: usize, out: &mut [u8; ROOM]) -> usize {
    if to < from {
        return 0;
    }
    if line.len() < to {
        return 0;
    }
    lines::hex::read_hex(&line[from..to], out)
}
