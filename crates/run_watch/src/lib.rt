//! What goes on beside a run: who watches it, what a person is told of it while it goes on, and its
//! log.
#![tactic(auto)]

mod log;
mod progress;
mod reading;
mod watched;

pub use cube_report::{Found, Gate, NoGate};
pub use log::{Lines, Log, NoLog, SystemLines, SystemLog};
pub use progress::Progress;
pub use reading::{Meter, Metered, MeteredFiles, Watch};
pub use watched::{Beside, Watched};
