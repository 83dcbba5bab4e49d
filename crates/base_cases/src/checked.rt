//! Rows of tables: each holds, or is named.

use std::process::Abort;

/// The row of this text holds.
pub fn assert_row(rt: &impl Abort, holds: bool, text: &str) {
    assert!(rt; holds, "{text}");
}

/// The row of this number holds.
pub fn assert_number(rt: &impl Abort, holds: bool, number: i64) {
    assert!(rt; holds, "{number}");
}
