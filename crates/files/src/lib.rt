// Files that are kept: their bytes there for good, and the lock that keeps other programs off them.
#![tactic(auto)]

pub mod file;
pub mod fit;
pub mod holder;
pub mod identity;
pub mod lock;
pub mod names;
pub mod paths;
pub mod room;
pub mod text;
mod told;
pub mod torn;
pub mod trouble;
mod wait;
pub mod whole;
