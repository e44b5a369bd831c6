//! Where bytes come from and where they go.
//!
//! A source and a sink may tell their bytes, and they count their faults, so that contracts can say
//! which bytes a call moved and that it gave up only because the outside failed.
#![tactic(auto)]

mod limits;
mod lines;
mod memory;
mod script;
mod standard;
mod sure;
mod traits;
mod whole;

pub use limits::{INPUT_LIMIT, LINE_LIMIT, READ_LIMIT};
pub use lines::{LineFault, LineReader};
pub use memory::{MemSink, MemSource};
pub use standard::{StdSink, StdSource};
pub use sure::{SureSink, SureSource};
pub use traits::{Failed, Sink, SinkFault, Source};
pub use whole::{ReadAllFault, WriteAllFault, read_all, write_all};

#[cfg(test)]
mod tests;
