//! What `print` prints, and that it prints the same of what it printed.

mod examples;
mod forms;
mod quoting;

use crate::checked::assert_row;
use crate::reading::crm;
use crm_print::print;
use std::alloc::Global;
use std::process::Abort;

/// A text, and its canonical text.
type Row = (&'static str, &'static str);

/// Whether a text is printed as this one.
fn is_printed(rt: &impl Abort, alloc: Global, text: &str, want: &str) -> bool {
    let printed = print(alloc, &crm(rt, alloc, text)).expect(rt, "memory");
    printed.as_slice() == want.as_bytes()
}

/// Each text is printed as its canonical text, and so is that.
fn assert_printed(rt: &impl Abort, alloc: Global, table: &[Row]) {
    for (text, want) in table {
        assert_row(rt, is_printed(rt, alloc, text, want), text);
        assert_row(rt, is_printed(rt, alloc, want, want), want);
    }
}
