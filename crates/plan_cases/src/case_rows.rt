//! Tests that are tables: each row is about a cluster and its journal, and says what is answered of them.

ghost use Rattle.std.specs.Prelude.{◌≡◌};
ghost use Rattle.cluster_types.specs.UnpackedStates.{states_of};
ghost use Rattle.cluster_types.specs.Valid.{IsValid};

use crate::plain::Known;
use std::alloc::Global;
use std::process::Abort;

/// A row of a table.
pub trait Case {
    /// What it is about.
    fn known(&self, rt: &impl Abort, alloc: Global) -> Known
        ensures valid { IsValid result.cluster }
        ensures told { result.states ≡ states_of result.cluster result.journal.events result.journal.promotions };

    /// Whether the answers are those of the row.
    fn holds(&self, rt: &impl Abort, alloc: Global, known: &Known) -> bool
        requires valid { IsValid known.now.cluster }
        requires told { known.now.states ≡ states_of known.now.cluster known.now.journal.events known.now.journal.promotions };
}

/// Whether a row holds.
fn check(rt: &impl Abort, alloc: Global, row: &impl Case) -> bool {
    let known = row.known(rt, alloc);
    row.holds(rt, alloc, &known)
}

/// All rows hold.
pub fn check_all(rt: &impl Abort, alloc: Global, rows: &[impl Case]) {
    for (number, row) in rows.iter().enumerate() {
        assert!(rt; check(rt, alloc, row), "row {number}");
    }
}
