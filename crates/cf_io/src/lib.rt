//! What comes in and what goes out: bytes from a source, bytes to a sink, and faults that are
//! counted.
//!
//! [`Source`] and [`Sink`] are the outside as the other crates see it. [`MemSource`] and
//! [`MemSink`] tell each byte and fail at listed calls. [`StdSource`] and [`StdSink`] stand over
//! std's `Read` and `Write`. [`read_all`] takes all that a source has left, up to a limit, and
//! [`write_all`] writes a whole text.
#![tactic(auto)]

mod counting;
mod failed;
mod mem_sink;
mod mem_source;
mod read_end;
mod reading;
mod sink;
mod source;
mod std_sink;
mod std_source;
mod write_fault;
mod writing;

pub use failed::Failed;
pub use mem_sink::MemSink;
pub use mem_source::MemSource;
pub use no_memory::NoMemory;
pub use read_end::ReadEnd;
pub use reading::read_all;
pub use sink::Sink;
pub use source::Source;
pub use std_sink::StdSink;
pub use std_source::StdSource;
pub use write_fault::WriteFault;
pub use writing::write_all;
