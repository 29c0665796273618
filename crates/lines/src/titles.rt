// The names of the coordinator's orders.
ghost use Rattle.std.specs.Prelude.{◌≡◌};
ghost use Rattle.lines.specs.Orders.{title_of};

// The orders of no word.
#[derive(Clone, Copy)]
pub enum Lone {
    Granted,
    Help,
    Quit,
}

// The orders of two numbers.
#[derive(Clone, Copy)]
pub enum Paired {
    Grant,
    Message,
}

#[derive(Clone, Copy)]
pub enum Title {
    Lone(Lone),
    Paired(Paired),
    Serve,
}

pub fn title_of(word: &[u8]) -> Option<Title>
    ensures { result ≡ title_of word.now }
{
    let title = match word {
        b"grant" => Title::Paired(Paired::Grant),
        b"message" => Title::Paired(Paired::Message),
        b"serve" => Title::Serve,
        b"granted" => Title::Lone(Lone::Granted),
        b"help" => Title::Lone(Lone::Help),
        b"quit" | b"exit" => Title::Lone(Lone::Quit),
        _ => return None,
    };
    Some(title)
}
