//! Long inputs, which repeat a text.

use crate::outcome::assert_written;
use sim_core::Status;
use std::alloc::Global;
use std::process::Abort;

/// How an input begins, what it repeats behind this and how often, and the status and the text that come of it.
pub struct LongRow {
    pub first: &'static str,
    pub repeated: &'static str,
    pub count: u32,
    pub status: Status,
    pub text: &'static str,
}

/// A text, and behind it another so many times.
pub fn repeated(rt: &impl Abort, alloc: Global, first: &str, text: &str, count: u32) -> String {
    let mut whole = String::from_str(alloc, first).expect(rt, "memory");
    for _ in 0..count {
        whole.push_str(text).expect(rt, "memory");
    }
    whole
}

/// The input gets its status and its text.
fn assert_long(rt: &impl Abort, alloc: Global, word: &str, row: &LongRow) {
    let input = repeated(rt, alloc, row.first, row.repeated, row.count);
    assert_written(rt, alloc, word, input.as_bytes(), row.status, row.text);
}

/// Each input gets its status and its text.
pub fn assert_each_long(rt: &impl Abort, alloc: Global, word: &str, rows: &[LongRow]) {
    for row in rows {
        assert_long(rt, alloc, word, row);
    }
}
