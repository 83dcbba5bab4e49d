//! Logical lines and their words: what a text is cut into before any statement is read.
#![tactic(auto)]

mod fault;
mod laws;
mod line;
mod logical;
mod name_set;
mod physical;
mod quoting;
mod reading;
mod span;
mod text;
mod word;
mod word_buf;

pub use fault::{LexCause, LexFault, lex_name};
pub use faults::NoMemory;
pub use laws::{lines_of_pieces, the_first_fault_is_read};
pub use line::Line;
pub use listed::Name;
pub use logical::{LONGEST_LINE, line_count};
pub use name_set::NameSet;
pub use physical::{begins_comment, ends_in};
pub use reading::logical_lines;
pub use text::is;
pub use word_buf::{WordBuf, lex_one};
