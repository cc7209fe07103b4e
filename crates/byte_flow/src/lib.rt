//! Readers and writers that count their failed calls, and what is read or written whole.
#![tactic(auto)]

mod device;
mod fault;
mod lines;
mod stream;
mod whole;

pub use device::{Counted, Sink, Source};
pub use fault::DeviceFault;
pub use lines::LineBuffer;
pub use stream::Stream;
pub use whole::{read_all, read_to_end, write_all};
