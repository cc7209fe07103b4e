//! What several reports on one formula and one tree say together.
#![tactic(auto)]

mod fields;
mod joining;
mod laws;
mod reading;
mod status;

pub use joining::{Join, Joined};
pub use laws::{
    a_join_is_a_report, a_report_tells_what_is_refuted, a_split_run_is_one_run,
    joined_reports_are_sound,
};
