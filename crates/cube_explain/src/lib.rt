//! What a person is told of a run beside its report: what was read, why proofs are rejected, and
//! where a fault comes from.
#![tactic(auto)]

mod again;
mod failed_files;
mod fault_places;
mod faults;
mod files;
mod folder;
mod header;
mod labels;
mod lines;
mod looks;
mod parts;
mod reasons;
mod rejected;
mod run;
mod shown;
mod step_lines;
mod teller;

pub use files::ReadFiles;
pub use teller::Teller;
