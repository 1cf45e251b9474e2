//! Where a program's bytes come from and where they go: sources and sinks whose faults are counted.
//!
//! Generic code reads and writes through [`Source`] and [`Sink`]. [`MemSource`] and [`MemSink`] fail at
//! chosen calls, [`ZeroFaultSource`] and [`ZeroFaultSink`] never fail, and [`StdSource`] and [`StdSink`]
//! stand for the files and streams of the host.
#![tactic(auto)]

mod fault;
mod fault_plan;
mod host;
mod host_streams;
mod mem_sink;
mod mem_source;
mod sink;
mod source;
mod std_sink;
mod std_source;
mod store;
mod tape;
#[cfg(test)]
mod tests;
mod zero_fault_sink;
mod zero_fault_source;

pub use fault::{ChooseFault, Failed, NoMemory};
pub use host_streams::{NamedFiles, SteadyRead, SteadyWrite};
pub use mem_sink::MemSink;
pub use mem_source::MemSource;
pub use sink::{Sink, write_all};
pub use source::Source;
pub use std_sink::StdSink;
pub use std_source::StdSource;
pub use zero_fault_sink::ZeroFaultSink;
pub use zero_fault_source::ZeroFaultSource;
