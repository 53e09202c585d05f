//! The streams that a run is given: the source that its scenario comes from and the sink that its report goes to.
//! Streams in memory, which can be made to fail, serve tests; streams of std serve the program. And the gate that workers
//! pass, in which a test may hold them.
#![tactic(auto)]

mod calls;
mod gate;
mod memory_sink;
mod memory_source;
mod sink;
mod source;
mod standard;

pub use gate::{Gate, OpenGate};
pub use memory_sink::MemSink;
pub use memory_source::MemSource;
pub use sink::{Sink, write_all};
pub use source::{ReadFault, Source, read_up_to};
pub use standard::{Standard, StdSink, StdSource};

/// A call of a stream has failed, and the stream has counted a fault.
#[derive(Clone, Copy, Debug, PartialEq, Eq)]
pub struct Failed;
