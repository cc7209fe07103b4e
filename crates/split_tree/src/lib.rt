//! The splitting tree of a list of cubes: whether the cubes fit, and where each leaf lies.
#![tactic(auto)]

mod clash;
mod group;
mod grow;
mod laws;
mod node;
mod nodes;
mod parts;
mod readers;
mod rows;
mod second;
mod shape;
mod tables;
mod top;
mod tree;

pub use clash::TreeFault;
pub use laws::{
    all_fit_or_a_clash, branches_refute_their_node, cube_path_is_cube, each_leaf_in_one_part,
    part_totals_add_up, parts_are_few, parts_are_subtrees, paths_are_apart, total_is_bounded,
    tree_is_only_one, tree_where_all_fit,
};
pub use node::{Leaf, NodeId, Target};
pub use top::Top;
pub use tree::{Tree, build};
