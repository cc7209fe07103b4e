//! Streams and files in memory for the tests of runs: they count their calls, and fail at one that
//! is chosen.
#![tactic(auto)]

mod shelf;
mod streams;

pub use shelf::{File, Pages, Shelf};
pub use streams::{Broken, Narrow};
