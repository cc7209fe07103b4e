//! A picture of the splitting tree of a run, as SVG.
#![tactic(auto)]

mod cell;
mod picture;

pub use picture::map_of;
