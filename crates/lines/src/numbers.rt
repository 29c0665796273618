// A word of a line as a number, as two, or as a hex word.
ghost use Rattle.std.specs.Prelude.{◌≡◌, ◌+◌, ◌-◌, ◌≤◌, ◌<◌, ◌^◌, length};
ghost use Rattle.lines.specs.Hex.{hex_at};
ghost use Rattle.lines.specs.Numbers.{sized, number_at, value_at, write_at, item_at};

use crate::words::{Class, Span};
use crate::{Fault, Mistake, words};

// How many digits a hex word has at most.
const MOST: usize = 1024;

// What the words of a list are: writes, or stamps.
#[derive(Clone, Copy)]
pub enum Row {
    Write,
    Stamp,
}

fn digit_value(b: u8) -> u64
    ensures { result ≡ b - 48 }
{
    b.saturating_sub(b'0') as u64
}

// The number that digits make. It is too large as soon as one more digit would bring it to 2^64.
fn digits_value(word: &[u8], column: usize) -> Result<u64, Mistake>
    ensures { result ≡ sized column word.now }
{
    let mut n: u64 = 0;
    for b in word {
        let x = digit_value(*b);
        if (u64::MAX - x) / 10 < n {
            return Err(Fault::Large.at(column));
        }
        n = n * 10 + x;
    }
    Ok(n)
}

// The word that begins in this column, as a number.
pub fn number_at(word: &[u8], column: usize) -> Result<u64, Mistake>
    requires { column + length word.now < 2 ^ 64 }
    ensures { result ≡ number_at column word.now }
{
    if word.is_empty() {
        return Err(Fault::Missing.at(column));
    }
    let digits = words::run_of(word, Class::Figure);
    if digits < word.len() {
        return Err(Fault::Digit.at(column + digits));
    }
    digits_value(word, column)
}

// The number behind the `=` that follows the key.
fn value_at(word: &[u8], key: usize, column: usize) -> Result<u64, Mistake>
    requires { (column + length word.now < 2 ^ 64) × (key ≤ length word.now) }
    ensures { result ≡ value_at key column word.now }
{
    if key < word.len() {
        let from = key + 1;
        let value = &word[from..];
        number_at(value, column + from)
    } else {
        Err(Fault::Equals.at(column + word.len()))
    }
}

fn write_at(word: &[u8], column: usize) -> Result<(u64, u64), Mistake>
    requires { column + length word.now < 2 ^ 64 }
    ensures { result ≡ write_at column word.now }
{
    let key = words::run_of(word, Class::Left);
    let object = &word[..key];
    let first = number_at(object, column)?;
    let second = value_at(word, key, column)?;
    Ok((first, second))
}

// The word as a part of a list.
pub fn item_at(word: &[u8], column: usize, row: Row) -> Result<(u64, u64), Mistake>
    requires { column + length word.now < 2 ^ 64 }
    ensures { result ≡ item_at row column word.now }
{
    match row {
        Row::Write => write_at(word, column),
        Row::Stamp => {
            let stamp = number_at(word, column)?;
            Ok((stamp, 0))
        }
    }
}

// Where the word that begins in this column stands in the line, as a hex word.
pub fn hex_at(word: &[u8], column: usize) -> Result<Span, Mistake>
    requires { (0 < column) × (column + length word.now < 2 ^ 64) }
    ensures { result ≡ hex_at column word.now }
{
    let digits = words::run_of(word, Class::Hex);
    if digits < word.len() {
        return Err(Fault::Hex.at(column + digits));
    }
    if MOST < word.len() {
        return Err(Fault::Long.at(column));
    }
    if word.len() % 2 == 1 {
        return Err(Fault::Odd.at(column));
    }
    let from = column - 1;
    Ok(Span {
        from,
        to: from + word.len(),
    })
}
