// The faces of a coordinator: its state is one lent struct.
ghost use Rattle.model.specs.Coordinator as model;
ghost use Rattle.model.specs.CoordinatorBytes as keeps;
ghost use Rattle.model.specs.Exchange as exchanges;
ghost use Rattle.coordinator.specs.States.{held};
ghost use Rattle.repository.specs.Faces.{Shown};
ghost use Rattle.repository.specs.Coordinating.{Granted, Sent, begun, Resumed};

use crate::Reply;
use coordinator::State;

// A coordinator that has granted and sent nothing.
#[unsafe(no_mangle)]
pub extern "C" fn jibcradle_coordinator_fresh(state: &mut State) -> Reply
    ensures { Resumed begun result (held state.new) }
{
    Reply::from(state.fresh())
}

// Grants the snapshot 256 x tick + node.
#[unsafe(no_mangle)]
pub extern "C" fn jibcradle_grant(state: &mut State, tick: u64, node: u64) -> Reply
    ensures { Granted (model.grant (held state.old) tick node) result (held state.new) }
{
    Reply::from(state.grant(tick, node))
}

// Writes the message with the snapshots after prev up to a clock stamp, at the buffer's front.
#[unsafe(no_mangle)]
pub extern "C" fn jibcradle_message(
    state: &mut State,
    prev: u64,
    clock: u64,
    buffer: &mut [u8],
) -> Reply
    ensures { Sent (model.message (held state.old) prev clock buffer.old) result (held state.new) buffer.new }
{
    Reply::from(state.message(prev, clock, buffer))
}

// The same for the bytes of a request.
#[unsafe(no_mangle)]
pub extern "C" fn jibcradle_serve(state: &mut State, request: &[u8], buffer: &mut [u8]) -> Reply
    ensures { Sent (exchanges.serve (held state.old) request.now buffer.old) result (held state.new) buffer.new }
{
    Reply::from(state.serve(request, buffer))
}

// The state's bytes, at the buffer's front.
#[unsafe(no_mangle)]
pub extern "C" fn jibcradle_coordinator_keep(state: &State, buffer: &mut [u8]) -> Reply
    ensures { Shown (keeps.keep_coordinator (held state.now) buffer.old) result buffer.new }
{
    Reply::from(state.keep(buffer))
}

// The coordinator that bytes hold, or a fresh one where they are refused. Whatever the words held before is gone.
#[unsafe(no_mangle)]
pub extern "C" fn jibcradle_coordinator_restart(state: &mut State, bytes: &[u8]) -> Reply
    ensures { Resumed (keeps.restart_coordinator bytes.now) result (held state.new) }
{
    Reply::from(state.restart(bytes))
}
