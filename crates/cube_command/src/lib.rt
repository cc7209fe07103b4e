//! The program `cubeboard` as a call: its words, its files, its streams, its texts and its status.
#![tactic(auto)]

mod asked;
mod call;
mod laws;
mod one_proof;
mod open;
// `command` stands here: a module can't have the name of an item beside it.
mod program;
mod record;
mod telling;
mod while_read;

pub use bundle_files::{FileId, FileStore, Inputs, Opener, Spared, Store, SystemFiles};
pub use command_words::is_given;
pub use cube_report::{Asked, Counted, Explain, Found, Gate, NoExplain, NoGate, Sink, Source};
pub use laws::a_list_names_the_open_leaves;
pub use program::command;
pub use record::digest_line_of;
pub use run_watch::{
    Lines, Log, Meter, Metered, MeteredFiles, NoLog, Progress, SystemLines, SystemLog, Watch,
};
pub use telling::{own_words, status_of, tell, tell_refused, words_of_call};
