//! The numbers of a binary LRAT proof, the text that a proof stands for, binary or a text, and
//! which proofs are binary.
#![tactic(auto)]

mod decoder;
mod form;
mod laws;
mod number;
mod page;

pub use decoder::Decoder;
pub use form::{ProofForm, binary_text, turn_from};
pub use laws::short_texts;
pub use number::next_number;
