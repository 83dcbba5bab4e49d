//! The target lines of a placement, one by one.

ghost use Rattle.std.specs.Prelude.{◌≡◌, ◌∷◌, [], true, ℕ, Some, List, IfSome, MatchOption, slice_get};
ghost use Rattle.cluster_types.specs.declared.placement.NoReason.TheVariants.{Held};
ghost use Rattle.cluster_types.specs.Tables.{targets_of};
ghost use Rattle.cluster_types.specs.Texts as texts;
ghost use Rattle.cluster_types.specs.Valid.{KeepsLimits};
ghost use Rattle.crm_lex.specs.Names.{is_name};
ghost use Rattle.trace_text.specs.RunLines.{HasNamedRule, lent_line};

use crate::run_line_ref::RunLineRef;
use crate::target_walk::{LinePlace, next_line};
use cluster_types::{Cluster, Placed};
use std::marker::Model;

/// Tells the target lines of a placement one by one: why a leaf is left as it is, where it goes, and why it goes nowhere.
///
/// Contracts see it as the lines that are still to be told. It takes no memory.
#[derive(Drop)]
pub struct TargetLines<'a> {
    cluster: &'a Cluster,
    placed: &'a Placed,
    place: LinePlace,
}

impl<'a> Model for TargetLines<'a> {
    ghost use Rattle.std.specs.Prelude.{List};
    ghost use Rattle.cluster_types.specs.declared.run.RunLine.{RunLine as RunLineOf};
    ghost use Rattle.trace_text.specs.Inner.TargetWalk.{CanBeTold, lines_from};

    ghost Value = { List RunLineOf };

    ghost view = { λ lines. lines_from lines.cluster.now lines.placed.now lines.place };

    ghost invariant = { λ lines. CanBeTold lines.cluster.now lines.placed.now };
}

impl<'a> TargetLines<'a> {
    /// No line is told yet. It asks for a cluster within the limits, and that the id of a rule that holds a leaf back is a name.
    pub fn new(cluster: &'a Cluster, placed: &'a Placed) -> TargetLines<'a>
        requires limits { KeepsLimits cluster.now }
        requires named { (r : ℕ) (id : List ℕ) → slice_get placed.now.none r ≡ Some (Some (Held id)) → is_name id ≡ true }
        ensures { result ≡ texts.target_lines cluster.now placed.now.pins (targets_of placed.now.table) placed.now.none }
    {
        TargetLines {
            cluster,
            placed,
            place: LinePlace::FIRST,
        }
    }

    /// The next line, or none where all are told.
    pub fn next(&mut self) -> Option<RunLineRef<'a>>
        ensures line { MatchOption result (self.old ≡ []) (λ line. self.old ≡ lent_line line ∷ self.new) }
        ensures named { IfSome result HasNamedRule }
    {
        next_line(
            self.cluster,
            self.placed.pins.as_slice(),
            &self.placed.table,
            self.placed.none.as_slice(),
            &mut self.place,
        )
    }
}
