//! The jobs of a run: the places of a case's sections, each claimed once by one of several passes.
#![tactic(auto)]

mod jobs;
mod rule;

pub use jobs::{JobPass, Jobs};
