//! The canonical text of a configuration, and the law that it is read again as the same statements.
#![tactic(auto)]

// How words are written.
mod keyword;
mod quoting;

// The items of a line.
mod item;
mod order;
mod rule;

// The lines.
mod statement;
mod text;

// What follows from the definitions.
mod laws;

pub use laws::{
    canonical_text_is_canonical, what_is_printed_before_a_comment_reads_again,
    what_is_printed_reads_again,
};
pub use text::print;
