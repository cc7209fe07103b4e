//! What is read and written by its path: files, and the proofs of a folder.
#![tactic(auto)]

mod folder;
mod inputs;
mod opener;
mod reader;
mod source;
mod store;
mod system;

pub use byte_flow::DeviceFault;
pub use folder::FolderText;
pub use inputs::{FileId, Inputs, Spared};
pub use opener::{Opener, SystemFiles};
pub use proof_folder::TargetProofs;
pub use reader::ProofReader;
pub use source::{append_file, append_given};
pub use store::{FileStore, Store};
pub use system::make_anew;
