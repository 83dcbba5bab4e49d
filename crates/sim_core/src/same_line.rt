//! A written line, and one that a run tells.

ghost use Rattle.std.specs.Prelude.{◌≡◌, ◌↔◌, IsTrue};
ghost use Rattle.sim_core.specs.LawfulRuns.{clause_of};
ghost use Rattle.trace_text.specs.RunLines.{lent_line};

use crate::verdict::Clause;
use cluster_types::RunLine;
use trace_text::RunLineRef;

/// Whether a written line is the one that is told.
pub(crate) fn is_same_line(written: &RunLine, told: &RunLineRef<'_>) -> bool
    ensures { IsTrue result ↔ (written.now ≡ lent_line told.now) }
{
    match (written, told) {
        (RunLine::Transition(k), RunLineRef::Transition(number)) => *k == *number,
        (RunLine::Pinned(r, p), RunLineRef::Pinned(leaf, pin)) => *r == *leaf && *p == *pin,
        (RunLine::Goal(r, n, t), RunLineRef::Goal(leaf, node, target)) => {
            *r == *leaf && *n == *node && *t == *target
        }
        (RunLine::Lacking(r, why), RunLineRef::Lacking(leaf, reason)) => {
            *r == *leaf && why == *reason
        }
        (RunLine::Begin(k, a), RunLineRef::Begin(number, action)) => *k == *number && *a == *action,
        (RunLine::Taken(given), RunLineRef::Taken(answer)) => *given == *answer,
        (RunLine::Complete(k), RunLineRef::Complete(number)) => *k == *number,
        (RunLine::Aborted(k), RunLineRef::Aborted(number)) => *k == *number,
        (RunLine::Unexpected(k), RunLineRef::Unexpected(at)) => *k == *at,
        _ => false,
    }
}

/// What kind of line it is.
pub(crate) fn clause_of(told: &RunLineRef<'_>) -> Clause
    ensures { result ≡ clause_of (lent_line told.now) }
{
    match *told {
        RunLineRef::Transition(_) => Clause::Transition,
        RunLineRef::Pinned(_, _) | RunLineRef::Goal(_, _, _) | RunLineRef::Lacking(_, _) => {
            Clause::Targets
        }
        RunLineRef::Begin(_, _) => Clause::Begin,
        RunLineRef::Complete(_) | RunLineRef::Aborted(_) => Clause::Close,
        RunLineRef::Taken(_) | RunLineRef::Unexpected(_) => Clause::Answer,
    }
}
