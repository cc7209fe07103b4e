//! A case whose sections came from files, one file a leaf: which case the bundle with all of them
//! stands for, and what its findings are.
#![tactic(auto)]

mod laws;
mod target_proofs;

pub use laws::{
    added_sections_make_a_case, findings_with_leaves, findings_without_line_ends, given_one_by_one,
    judged_with_leaves, leaves_are_all, line_end_keeps_proof, names_name_leaves,
};
pub use target_proofs::TargetProofs;
