// A commit without its journal: judged over the store, then written to it. Restart uses both as they stand.
#![tactic(auto)]

mod applying;
pub mod fitting;
mod judging;

pub use applying::{add_all, apply_commit};
pub use judging::{Weight, judge_commit, judge_with_room, roomy};
