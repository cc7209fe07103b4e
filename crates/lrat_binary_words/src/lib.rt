//! The words of a binary LRAT proof (CADE 2017, as CaDiCaL 2 and drat-trim write it), for the
//! reader of steps: the proof is read straight from its bytes.
#![tactic(auto)]

mod laws;
mod numeral;
mod words;

pub use laws::{round_trip, symbols_of_text};
pub use words::BinaryWords;
