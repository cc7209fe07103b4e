//! The boards of a case: what is refuted, and how much is open below each node.
#![tactic(auto)]

mod above;
mod board;
mod boards;
mod laws;
mod mark;
mod marked_tree;
mod marks;
mod part;
mod place;
mod posted;
mod rows;
mod stored;
mod walk;

pub use board::Board;
pub use boards::Boards;
pub use laws::{
    marked_has_no_model, marked_stays_marked, open_after_post, open_branches_add_up,
    open_branches_are_all, open_branches_are_apart, open_parts_add_up, parts_stand_on_top,
    top_has_the_nodes_above_the_cut, top_marks_the_root,
};
pub use mark::Mark;
pub use marked_tree::{MarkedTree, open_branches_of};
pub use marks::Marks;
pub use part::PartVerdict;
pub use place::Place;
pub use posted::{PartPosted, Posted};
pub use rows::Answer;
pub use stored::BoardData;
