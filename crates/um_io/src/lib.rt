//! Where bytes come from and where they go: sources and sinks, reading to the end, writing it all.
//! Each counts its failures, so that a caller can tell whose fault a failure is.
#![tactic(auto)]

mod calls;
mod failed;
mod gate;
mod mem_sink;
mod mem_source;
mod reading;
mod sink;
mod source;
mod std_sink;
mod std_source;
mod writing;

pub use failed::Failed;
pub use gate::{Gate, NoGate};
pub use mem_sink::MemSink;
pub use mem_source::MemSource;
pub use reading::{ReadAll, read_all};
pub use sink::Sink;
pub use source::Source;
pub use std_sink::StdSink;
pub use std_source::StdSource;
pub use writing::write_all;
