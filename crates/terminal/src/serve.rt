// The lines of the input, each served at a desk: by the command that has the desk.
ghost use Rattle.std.specs.Prelude.{◌≡◌, true, false, length, MatchResult};
ghost use Rattle.terminal.specs.declared.serve.Stop.TheVariants.{Failed};
ghost use Rattle.terminal.specs.Buffers.{Within};

use crate::input;
use crate::input::{Input, Source, State};

// Why no more calls are taken: all was served, or something failed, after a word on standard error.
#[derive(Clone, Copy, PartialEq, Eq, Debug)]
pub enum Stop {
    Done,
    Failed,
}

// An answer that was given, or couldn't be.
pub fn given(said: bool) -> Result<(), Stop>
    ensures { MatchResult result (λ _. said ≡ true) (λ stop. (said ≡ false) × (stop ≡ Failed)) }
{
    if said { Ok(()) } else { Err(Stop::Failed) }
}

pub trait Desk {
    // Serves the line of this number. One without a call is passed over.
    fn serve(&mut self, rt: &HostRuntime, line: &[u8], number: u64) -> Result<(), Stop>;
}

fn serve_all<D: Desk>(
    rt: &HostRuntime,
    desk: &mut D,
    buffer: &mut [u8],
    begun: Input,
) -> Result<(), Stop>
    requires { Within begun (length buffer.old) }
{
    let mut input = begun;
    for _ in 0..input::TURNS {
        match input.state {
            State::Going => {}
            State::Ended => return Ok(()),
            State::Failed => return Err(Stop::Failed),
        }
        let number = input.line;
        if let Some(span) = input.take(rt, buffer) {
            desk.serve(rt, &buffer[span.from..span.to], number)?;
        }
    }
    Ok(())
}

// Serves each line of the input, or of a text that is laid in its place. False where something failed.
pub fn is_served<D: Desk>(rt: &HostRuntime, desk: &mut D, source: Source, laid: &[u8]) -> bool {
    let mut buffer = input::buffer();
    let begun = Input::at_start(&mut buffer, source, laid);
    serve_all(rt, desk, &mut buffer, begun) != Err(Stop::Failed)
}
