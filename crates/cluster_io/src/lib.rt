//! Where the bytes of a run come from and go to: sources and sinks that count their own faults.
#![tactic(auto)]

mod attempts;
mod held_lines;
mod line_reader;
mod line_scan;
mod line_step;
mod memory_sink;
mod memory_source;
mod sink;
mod source;
mod standard;
mod window;

pub use crm_lex::NoMemory;
pub use held_lines::HeldLines;
pub use line_reader::LineReader;
pub use line_step::LineStep;
pub use memory_sink::MemorySink;
pub use memory_source::MemorySource;
pub use sink::{Sink, WriteFault, WriteStep, write_text};
pub use source::{ReadEnd, ReadStep, Source, read_all};
pub use standard::{StdSink, StdSource};
