//! The text of scores.

ghost use Rattle.std.specs.Prelude.{◌≡◌, ◌++◌, IfOk, OnOk};
ghost use Rattle.std.specs.List.{enumerate_from, flat_map};
ghost use Rattle.cluster_types.specs.Texts as texts;
ghost use Rattle.cluster_types.specs.Valid.{KeepsLimits};

use crate::line_text::LineText;
use crate::names::{put_leaf, put_leaf_on};
use crate::target_walk::push_targets;
use cluster_types::{Cluster, Decision, LeafId, Placed};
use faults::NoMemory;
use score::Score;
use std::alloc::Global;

/// The line of a decision, as `place LEAF`. `NoMemory` comes when memory runs out.
pub fn push_decision(
    text: &mut Vec<u8>,
    cluster: &Cluster,
    decision: Decision,
) -> Result<(), NoMemory>
    ensures { OnOk result (text.new.items ≡ text.old.items ++ texts.decision_line cluster.now decision) }
{
    let word: &[u8] = match decision {
        Decision::Place(_) => b"place ",
        Decision::Promote(_) => b"promote ",
    };
    put_leaf(text, cluster, word, decision.leaf())?;
    text.put(b"\n")
}

/// The line of the total of a leaf on a node, as `score LEAF NODE SCORE`. `NoMemory` comes when memory runs out.
pub fn push_total(
    text: &mut Vec<u8>,
    cluster: &Cluster,
    leaf: LeafId,
    node: usize,
    total: Score,
) -> Result<(), NoMemory>
    ensures { OnOk result (text.new.items ≡ text.old.items ++ texts.score_line cluster.now leaf (node, total)) }
{
    let mut buffer = [0; 12];
    let length = total.write_to(&mut buffer);
    text.put(b"score ")?;
    put_leaf_on(text, cluster, leaf, node)?;
    text.put(b" ")?;
    text.put(&buffer[..length])?;
    text.put(b"\n")
}

/// The lines of the totals of a leaf, in the order of nodes.
fn push_totals(
    text: &mut Vec<u8>,
    cluster: &Cluster,
    leaf: LeafId,
    totals: &[Score],
) -> Result<(), NoMemory>
    ensures { OnOk result (text.new.items ≡ text.old.items ++ flat_map (texts.score_line cluster.now leaf) (enumerate_from 0 totals.now)) }
{
    for (node, total) in totals.iter().enumerate() {
        push_total(text, cluster, leaf, node, *total)?;
    }
    Ok(())
}

/// The text of scores: each decision in the order in which it was made with its total on each node, and then the target lines (rule of
/// this project). It asks for a cluster within the limits. `NoMemory` comes when memory runs out.
pub fn score_text(alloc: Global, cluster: &Cluster, placed: &Placed) -> Result<Vec<u8>, NoMemory>
    requires limits { KeepsLimits cluster.now }
    ensures { IfOk result (λ text. text.items ≡ texts.scores_text cluster.now placed.now) }
{
    let mut text = Vec::new(alloc);
    for made in placed.decided.as_slice() {
        push_decision(&mut text, cluster, made.decision)?;
        push_totals(
            &mut text,
            cluster,
            made.decision.leaf(),
            made.totals.as_slice(),
        )?;
    }
    push_targets(
        &mut text,
        cluster,
        placed.pins.as_slice(),
        &placed.table,
        placed.none.as_slice(),
    )?;
    Ok(text)
}
