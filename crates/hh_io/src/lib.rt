//! Sources and sinks of bytes, which count their faults.
#![tactic(auto)]

mod front;
mod memory;
mod reading;
mod sink;
mod source;
mod standard;
mod steady;
mod writing;

pub use memory::{MemSink, MemSource};
pub use reading::{ReadError, read_all};
pub use sink::Sink;
pub use source::{Failed, Source};
pub use standard::{StdSink, StdSource};
pub use steady::{SteadySink, SteadySource};
pub use writing::write_all;
