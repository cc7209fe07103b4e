//! What a run is set up by, why it gives no report, and who tells a person of it.
#![tactic(auto)]

mod explain;
mod fault;
mod settings;

pub use explain::{Asked, Explain, Kept, NoExplain};
pub use fault::Fault;
pub use settings::Settings;
