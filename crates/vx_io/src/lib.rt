//! Files that are listed and read, and sinks that are written: two traits with counts of faults, and what
//! implements them, in memory and over the real thing.
#![tactic(auto)]

pub mod fault;
pub mod files;
pub mod host_files;
pub mod host_sink;
pub mod kept;
pub mod log;
pub mod memory_files;
pub mod memory_sink;
pub mod sink;
pub mod steady_files;
pub mod steady_sink;
mod walk;

pub use fault::{FileFault, SinkFault};
pub use files::Files;
pub use host_files::HostFiles;
pub use host_sink::HostSink;
pub use kept::are_distinct;
pub use memory_files::MemoryFiles;
pub use memory_sink::MemorySink;
pub use sink::{Sink, put_all};
pub use steady_files::SteadyFiles;
pub use steady_sink::SteadySink;
