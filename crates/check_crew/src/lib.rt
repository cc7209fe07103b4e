//! A crew of workers: each section of a case is examined by one of them, and what they find stands
//! on the boards.
#![tactic(auto)]

mod compare;
mod crew;
mod elsewhere;
mod fault;
mod found;
mod gate;
mod handed;
mod no_proofs;
mod one;
mod order;
mod reader;
mod rooms;
mod site;
mod target_order;
mod targets;
mod threads;
mod while_read;
mod worker;

pub use crew::conquer;
pub use elsewhere::conquer_elsewhere;
pub use fault::{CrewFault, ReadFault};
pub use gate::{Elsewhere, Found, Gate, NoGate};
pub use one::OneWorker;
pub use proof_folder::TargetProofs;
pub use run_terms::Settings;
pub use targets::Examined;
pub use while_read::conquer_while_read;
