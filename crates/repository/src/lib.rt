// What C and Rust call: the whole store is one struct behind a reference, and no table is copied. A coordinator is one struct too.
#![tactic(auto)]

pub mod changing;
pub mod coordinating;
pub mod exchanging;
pub mod reading;
pub mod replies;
pub mod starting;

pub use replies::{Knowledge, Moved, Reply, Report};
pub use tables::Store;
