// Commit, gossip and flush with their journal. None requires anything. Each judges everything, the room last, before it writes
// anything, so a refused call has written nothing.
// The parts of a call are inlined: behind a call of their own, results go through memory.
#![tactic(auto)]

// Kept: the three calls share damage first, the journal's room last and the record, but each has arguments, tests and a judge's findings of
// its own in between: one function for all would be handed five closures by each call, with more lines than the three have.
mod adding;
pub mod committing;
pub mod flushing;
pub mod gossiping;
pub mod settling;
