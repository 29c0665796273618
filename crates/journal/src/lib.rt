// The journal's bytes: records written at a place, and read from one.
#![tactic(auto)]

pub mod kind;
pub mod place;
pub mod reader;
pub mod walk;
