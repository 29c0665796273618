// The words of a line, found from left to right.
ghost use Rattle.std.specs.Prelude.{◌≡◌, ◌≤◌, length};
ghost use Rattle.lines.specs.Words.{blank, leading, of_class};

// What a byte can be: a blank, no blank, a digit, a hex digit, no `#`, no `=`.
// Kept: a closure in place of a class would be no plainer, since its contract would say again what `of_class` of specs/Words.antt says.
#[derive(Clone, Copy)]
pub enum Class {
    Gap,
    Ink,
    Figure,
    Hex,
    Text,
    Left,
}

// The bytes of a word, from `from` up to `to`.
#[derive(Clone, Copy)]
pub struct Span {
    pub from: usize,
    pub to: usize,
}

fn is_blank(b: u8) -> bool
    ensures { result ≡ blank b }
{
    matches!(b, b' ' | b'\t' | b'\r')
}

impl Class {
    fn has(self, b: u8) -> bool
        ensures { result ≡ of_class self b }
    {
        match self {
            Class::Gap => is_blank(b),
            Class::Ink => !is_blank(b),
            Class::Figure => b.is_ascii_digit(),
            Class::Hex => b.is_ascii_hexdigit(),
            Class::Text => b != b'#',
            Class::Left => b != b'=',
        }
    }
}

// How many bytes at the beginning are of the class.
pub fn run_of(bytes: &[u8], class: Class) -> usize
    ensures value { result ≡ leading (of_class class) bytes.now }
    ensures within { result ≤ length bytes.now }
{
    for (i, b) in bytes.iter().enumerate() {
        if !class.has(*b) {
            return i;
        }
    }
    bytes.len()
}

// A line's text, read word by word: how much of it is read.
#[derive(Drop)]
pub struct Reader<'a> {
    pub text: &'a [u8],
    pub at: usize,
    ghost within: { at ≤ length text.now },
}
