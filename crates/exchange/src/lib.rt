// The repository's end of the exchange with its coordinator: it asks for what it missed, and hears messages. Neither call requires anything.
#![tactic(auto)]

pub mod asking;
pub mod hearing;
