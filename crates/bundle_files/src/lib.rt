//! What is said of a bundle whose bytes come from the program's input, a file, and a folder with
//! the proofs of leaves.
#![tactic(auto)]

mod formula;
mod judge;
mod laws;
mod one_proof;
mod while_read;

pub use file_store::{
    DeviceFault, FileId, FileStore, Inputs, Opener, ProofReader, Spared, Store, SystemFiles,
    TargetProofs, append_file, append_given, make_anew,
};
pub use formula::{BegunBundle, ReadBundle, begin_bundle, read_from};
pub use judge::{judge_with_folder, of_input};
pub use laws::{proofs_judged_apart, proofs_keep_formula};
pub use one_proof::{OneCube, begin_one, judge_proof_of};
pub use while_read::{BundleFront, judge_while_read, read_front};
