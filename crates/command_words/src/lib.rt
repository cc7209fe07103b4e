//! The words of the program `cubeboard`: what they ask for, and the help.
#![tactic(auto)]

mod words;

pub use words::{Request, is_given, request_of};
