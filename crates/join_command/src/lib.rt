//! The program `cubejoin` as a call: its words, its files, its streams, its texts and its status.
#![tactic(auto)]

mod fault;
mod files;
mod laws;
// `join_command` stands here: a module can't have the name of an item beside it.
mod program;
mod telling;
mod words;

pub use bundle_files::{FileStore, Store, SystemFiles};
pub use cube_report::{Counted, Sink};
pub use fault::JoinFault;
pub use laws::{a_run_leaves_its_record, trusted_texts_are_reports};
pub use program::join_command;
pub use telling::own_words;
