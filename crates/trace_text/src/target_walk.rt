//! A walk through the target lines of all leaves.

ghost use Rattle.std.specs.Prelude.{◌≡◌, ◌∷◌, ◌++◌, ◌<◌, [], IfSome, MatchOption, OnOk, length};
ghost use Rattle.std.specs.List.{flat_map};
ghost use Rattle.cluster_types.specs.Tables.{targets_of};
ghost use Rattle.cluster_types.specs.Texts as texts;
ghost use Rattle.cluster_types.specs.Valid.{KeepsLimits};
ghost use Rattle.trace_text.specs.RunLines.{HasNamedRule, lent_line};
ghost use Rattle.trace_text.specs.Inner.TargetWalk.{AreReasonsNamed, IsLineFound, lines_in, next_place, target_lines_from};

use crate::run_line_ref::RunLineRef;
use crate::run_lines::put_line;
use cluster_types::{Cluster, NoReason, NodeId, Pin, Table, Target, pin_of};
use faults::NoMemory;

/// What a target line of a leaf says.
#[derive(Clone, Copy)]
pub enum LineColumn {
    /// Why the leaf is left as it is.
    Pin,
    /// Its target on the node.
    Goal(NodeId),
    /// Why it has no target.
    Reason,
}

/// A place among the target lines of all leaves, of which some places have no line.
#[derive(Clone, Copy)]
pub struct LinePlace {
    pub leaf: usize,
    pub column: LineColumn,
}

impl LinePlace {
    /// The first place: from it all target lines come.
    pub const FIRST: LinePlace = LinePlace {
        leaf: 0,
        column: LineColumn::Pin,
    };

    /// The place behind it.
    fn behind(self, cluster: &Cluster) -> LinePlace
        requires limits { KeepsLimits cluster.now }
        requires within { self.leaf < length cluster.now.leaves }
        ensures { result ≡ next_place cluster.now self }
    {
        let leaf = self.leaf;
        match self.column {
            LineColumn::Pin => LinePlace {
                leaf,
                column: LineColumn::Goal(0),
            },
            LineColumn::Goal(node) if (node as usize) < cluster.nodes.len() => LinePlace {
                leaf,
                column: LineColumn::Goal(node + 1),
            },
            LineColumn::Goal(_) => LinePlace {
                leaf,
                column: LineColumn::Reason,
            },
            LineColumn::Reason => LinePlace {
                leaf: leaf + 1,
                column: LineColumn::Pin,
            },
        }
    }
}

/// The line at a place, if one stands there.
fn line_at<'a>(
    cluster: &Cluster,
    pins: &[Option<Pin>],
    table: &Table,
    none: &'a [Option<NoReason>],
    place: LinePlace,
) -> Option<RunLineRef<'a>>
    requires limits { KeepsLimits cluster.now }
    requires within { place.leaf < length cluster.now.leaves }
    ensures line { IsLineFound result (lines_in cluster.now pins.now (targets_of table.now) none.now place.leaf place.column) }
    ensures named { AreReasonsNamed none.now → IfSome result HasNamedRule }
{
    let leaf = place.leaf as u32;
    match place.column {
        LineColumn::Pin => match pin_of(pins, leaf) {
            Some(pin) => Some(RunLineRef::Pinned(leaf, pin)),
            None => None,
        },
        LineColumn::Goal(node) if (node as usize) < cluster.nodes.len() => {
            match table.target(leaf, node) {
                Target::Nowhere => None,
                Target::Started => Some(RunLineRef::Goal(leaf, node, Target::Started)),
                Target::Promoted => Some(RunLineRef::Goal(leaf, node, Target::Promoted)),
            }
        }
        LineColumn::Goal(_) => None,
        LineColumn::Reason => match none.get(place.leaf) {
            Some(Some(reason)) => Some(RunLineRef::Lacking(leaf, reason)),
            Some(None) | None => None,
        },
    }
}

/// The next target line from a place on, which then stands behind it; none where there is no more.
pub(crate) fn next_line<'a>(
    cluster: &Cluster,
    pins: &[Option<Pin>],
    table: &Table,
    none: &'a [Option<NoReason>],
    place: &mut LinePlace,
) -> Option<RunLineRef<'a>>
    requires limits { KeepsLimits cluster.now }
    ensures line { MatchOption result (target_lines_from cluster.now pins.now (targets_of table.now) none.now place.old ≡ [])
        (λ line. target_lines_from cluster.now pins.now (targets_of table.now) none.now place.old
        ≡ lent_line line ∷ target_lines_from cluster.now pins.now (targets_of table.now) none.now place.new) }
    ensures named { AreReasonsNamed none.now → IfSome result HasNamedRule }
{
    while place.leaf < cluster.leaves.len() {
        let found = line_at(cluster, pins, table, none, *place);
        *place = place.behind(cluster);
        match found {
            Some(line) => return Some(line),
            None => {}
        }
    }
    None
}

/// The target lines of all leaves, in their order. It asks for a cluster within the limits. `NoMemory` comes when memory runs out.
pub fn push_targets(
    text: &mut Vec<u8>,
    cluster: &Cluster,
    pins: &[Option<Pin>],
    table: &Table,
    none: &[Option<NoReason>],
) -> Result<(), NoMemory>
    requires { KeepsLimits cluster.now }
    ensures { OnOk result (text.new.items ≡ text.old.items
        ++ flat_map (texts.run_line cluster.now) (texts.target_lines cluster.now pins.now (targets_of table.now) none.now)) }
{
    let mut place = LinePlace::FIRST;
    while let Some(line) = next_line(cluster, pins, table, none, &mut place) {
        put_line(text, cluster, &line)?;
    }
    Ok(())
}
