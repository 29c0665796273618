// The bytes of a hex word.
ghost use Rattle.std.specs.Prelude.{◌≡◌, ◌<◌};
ghost use Rattle.lines.specs.Hex.{hex_value, hex_byte, Decoded};

// How many bytes are lent: a word of at most 1024 digits has no more.
pub const ROOM: usize = 512;

// What a digit counts, and 0 for a byte that is none.
fn value(b: u8) -> u8
    ensures { (result ≡ hex_value b) × (result < 16) }
{
    match b {
        b'0'..=b'9' => b - b'0',
        b'a'..=b'f' => b - b'a' + 10,
        b'A'..=b'F' => b - b'A' + 10,
        _ => 0,
    }
}

fn byte(a: u8, b: u8) -> u8
    ensures { result ≡ hex_byte a b }
{
    16 * value(a) + value(b)
}

// The bytes of a hex word, at the front of the lent ones, and how many they are. What a word that is none gives is said in specs/Hex.antt.
pub fn read_hex(word: &[u8], out: &mut [u8; ROOM]) -> usize
    ensures { Decoded word.now out.new result }
{
    let count = ROOM.min(word.len() / 2);
    for i in 0..count {
        out[i] = byte(word[2 * i], word[2 * i + 1]);
    }
    count
}
