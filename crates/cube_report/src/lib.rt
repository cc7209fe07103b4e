//! What is said of a bundle: its report or its first fault, and the run from a reader to a writer.
#![tactic(auto)]

mod engine;
mod laws;
mod report;

pub use byte_flow::{Counted, DeviceFault, Sink, Source, Stream, read_all, read_to_end, write_all};
pub use case_core::{Case, Judged, Leaf, NodeId, Target, Tree, icnf_part};
pub use check_crew::{
    Elsewhere, Found, Gate, NoGate, OneWorker, ReadFault, Settings, TargetProofs,
    conquer_elsewhere, conquer_while_read,
};
pub use engine::{
    Outcome, judge_apart, judge_bundle, run, run_io, run_one, write_report, written_by,
};
pub use laws::{
    a_line_for_each_section, a_short_report, one_answer, one_report, same_report, written_is_stated,
};
pub use mark_board::Place;
pub use report::{line_of, report_of};
pub use run_terms::{Asked, Explain, Fault, Kept, NoExplain};
