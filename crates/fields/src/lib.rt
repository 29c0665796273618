// Numbers as big-endian bytes, written to a slice and read from one. The width is a number of bytes.
// All three require that the bytes are there: whoever calls has tested that before.
#![tactic(auto)]

ghost use Rattle.std.specs.Prelude.{◌≡◌, ◌≤◌, ◌+◌, ◌*◌, length, take, drop};
ghost use Rattle.model.specs.Bytes.{be, from_be, column, write_at};

// The width bytes of x go to j from `at`, the last byte first.
pub fn put_be(j: &mut [u8], at: usize, width: usize, x: u64)
    requires { at + width ≤ length j.old }
    ensures { j.new ≡ write_at at (be width x) j.old }
{
    let mut y = x;
    for k in (0..width).rev() {
        j[at + k] = (y % 256) as u8;
        y /= 256;
    }
}

// The number of the width bytes of s from `at`.
pub fn get_be(s: &[u8], at: usize, width: usize) -> u64
    requires { (at + width ≤ length s.now) × (width ≤ 8) }
    ensures { result ≡ from_be (take width (drop at s.now)) }
{
    let mut a: u64 = 0;
    for byte in &s[at..at + width] {
        a = a * 256 + u64::from(*byte);
    }
    a
}

// Fills a list with numbers of width bytes each, the first from `at`, every other one stride bytes behind the one before it.
pub fn get_column(s: &[u8], at: usize, stride: usize, width: usize, out: &mut [u64])
    requires { (at + stride * length out.old + width ≤ length s.now + stride) × (width ≤ 8) }
    ensures { out.new ≡ column width stride (length out.old) (drop at s.now) }
{
    for (i, number) in out.iter_mut().enumerate() {
        *number = get_be(s, at + stride * i, width);
    }
}
