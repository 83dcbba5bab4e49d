use crate::Name;
use listed::Listed;

/// A logical line: its words, and the number of its first physical line, counted from 1.
#[derive(PartialEq, Eq, Drop)]
pub struct Line {
    pub line: u32,
    pub words: Listed<Name>,
}
