// Bytes taken apart: the folder of a name, a number, counts within a slice.
ghost use Rattle.io.specs.Counts.{IsPrefixLen};

// The longest name of a journal: with what is put behind it, it is still a path.
pub const LONGEST: usize = 4000;

// A count of bytes, and no more than there are.
pub fn within(n: usize, bytes: &[u8]) -> usize
    ensures { IsPrefixLen result bytes.now }
{
    n.min(bytes.len())
}

// The folder that the name stands in.
pub fn folder(path: &[u8]) -> &[u8] {
    match path.iter().rposition(|b| *b == b'/') {
        Some(0) => b"/",
        Some(n) => &path[..n],
        None if path.is_empty() => b"/",
        None => b".",
    }
}

// The number that the digits at the front make: 0 where there are none, and where it would be too large.
pub fn number(text: &[u8]) -> u64 {
    let mut n: u64 = 0;
    for b in text {
        if *b < b'0' || b'9' < *b {
            return n;
        }
        if 1000000000000000000 < n {
            return 0;
        }
        n = n * 10 + u64::from(*b - b'0');
    }
    n
}
