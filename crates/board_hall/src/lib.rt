//! Boards shared by threads: for each a lock word, an open word and a slot of one table, under one
//! rule.
#![tactic(auto)]

mod calls;
mod closing;
mod hall;
mod held;
mod laws;
mod opening;
mod pass;
mod plays;
mod rule;
mod same_hall;
mod seat;
mod table;
mod view;

pub use hall::Hall;
pub use laws::{free_is_whole, free_is_whole_of_leaves, stays_lawful};
pub use pass::Pass;
pub use rule::{InHall, Terms};
pub use same_hall::SameHall;
pub use table::Core;
pub use view::{CutCase, Post, Proofs, View};
