//! A case: the formula, the tree of its cubes and the proofs of a bundle, and what is found of each
//! of them.
#![tactic(auto)]

mod bundle;
mod case;
mod examiner;
mod fault;
mod finding;
mod label;
mod label_line;
mod labelled;
mod laws;
mod reading;
mod sections;
mod target;

pub use bundle::{icnf_part, line_count, line_ends, read_bundle, read_tree, take_bundle};
pub use case::{Case, Section};
pub use cnf_text::tokens::{first_word, is_comment, split_line};
pub use cnf_text::{
    Clause, DimacsFault, Formula, Lit, Problem, TextFault, read_icnf, read_problem,
};
pub use examiner::{Examiner, ReadFinding, ReadProof, examine};
pub use fault::CaseFault;
pub use finding::Finding;
pub use hint_check::{Judged, Reason};
pub use label_line::LabelLine;
pub use labelled::{LabelledText, TakenLines};
pub use laws::{
    case_or_a_fault, no_fault_beside_a_case, no_label_in_a_binary_proof, one_case, one_fault,
};
pub use lrat_binary::{ProofForm, binary_text, turn_from};
pub use split_tree::{Leaf, NodeId, Target, Tree};
pub use target::has_target;
