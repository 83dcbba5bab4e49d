//! The lines and the statements of a text, for the tests that begin with them.

use crm_lex::{Line, logical_lines};
use crm_parse::{Crm, parse};
use std::alloc::Global;
use std::process::Abort;

/// The numbers of lines are below this.
pub const LINES: usize = 4_294_967_296;

/// The lines of a text.
pub fn lines(rt: &impl Abort, alloc: Global, text: &str) -> Vec<Line> {
    assert!(rt; text.len() < LINES);
    logical_lines(alloc, text.as_bytes()).expect(rt, "the words are read")
}

/// The statements of a text.
pub fn crm(rt: &impl Abort, alloc: Global, text: &str) -> Crm {
    let lines = lines(rt, alloc, text);
    parse(alloc, lines.as_slice()).expect(rt, "the statements are read")
}
