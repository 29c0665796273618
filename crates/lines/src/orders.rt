// One line of the coordinator's command, read as an order. specs/Orders.antt says what each line means.
ghost use Rattle.std.specs.Prelude.{◌≡◌};
ghost use Rattle.lines.specs.Promises.{ahead, end_of};
ghost use Rattle.lines.specs.Orders.{lone_order, paired_order, with_pair, with_serve, titled, text_order, ReadOrder};

use crate::titles::{Lone, Paired, Title};
use crate::words::{Class, Reader};
use crate::{Fault, Mistake, titles, words};

// An order with its numbers; Serve has where its hex word begins and ends in the line.
#[derive(Clone, Copy)]
pub enum Order {
    Blank,
    Grant(u64, u64),
    Message(u64, u64),
    Serve(usize, usize),
    Granted,
    Quit,
    Help,
}

impl Lone {
    fn order(self) -> Order
        ensures { result ≡ lone_order self }
    {
        match self {
            Lone::Granted => Order::Granted,
            Lone::Help => Order::Help,
            Lone::Quit => Order::Quit,
        }
    }
}

impl Paired {
    fn order(self, a: u64, b: u64) -> Order
        ensures { result ≡ paired_order self a b }
    {
        match self {
            Paired::Grant => Order::Grant(a, b),
            Paired::Message => Order::Message(a, b),
        }
    }
}

fn read_paired(words: &mut Reader<'_>, which: Paired) -> Result<Order, Mistake>
    ensures { result ≡ with_pair which (end_of words.old) (ahead words.old) }
{
    let a = words.number()?;
    let b = words.number()?;
    words.close(which.order(a, b))
}

fn read_serve(words: &mut Reader<'_>) -> Result<Order, Mistake>
    ensures { result ≡ with_serve (end_of words.old) (ahead words.old) }
{
    let span = words.hex()?;
    words.close(Order::Serve(span.from, span.to))
}

// The order of a name, and of the words behind it.
fn read_title(words: &mut Reader<'_>, title: Title) -> Result<Order, Mistake>
    ensures { result ≡ (titled title (end_of words.old) (ahead words.old)).order }
{
    match title {
        Title::Lone(which) => words.close(which.order()),
        Title::Paired(which) => read_paired(words, which),
        Title::Serve => read_serve(words),
    }
}

// The order that a line is, its comment cut off.
fn read_text(text: &[u8]) -> Result<Order, Mistake>
    ensures { result ≡ (text_order text.now).order }
{
    let mut words = Reader::new(text);
    let Some(span) = words.next_word() else {
        return Ok(Order::Blank);
    };
    match titles::title_of(&text[span.from..span.to]) {
        Some(title) => read_title(&mut words, title),
        None => Err(Fault::Unknown.at(span.from + 1)),
    }
}

// The order that a line is.
pub fn read_order(line: &[u8]) -> Result<Order, Mistake>
    ensures { ReadOrder line.now result }
{
    let end = words::run_of(line, Class::Text);
    let text = &line[..end];
    read_text(text)
}
