//! The text of a graph.

ghost use Rattle.std.specs.Prelude.{◌≡◌, ◌<◌, ◌≤◌, ◌++◌, ℕ, codes, decimal, length, IfOk, OnOk};
ghost use Rattle.std.specs.List.{flat_map};
ghost use Rattle.cluster_types.specs.declared.cluster.Cluster.{Cluster as ClusterOf};
ghost use Rattle.cluster_types.specs.Graphs.{is_before};
ghost use Rattle.cluster_types.specs.Texts as texts;

use crate::line_text::LineText;
use crate::numbers::put_numbered;
use crate::run_lines::put_action;
use crate::walk::Predecessors;
use cluster_types::{Action, Cluster, Graph};
use faults::NoMemory;
use std::alloc::Global;

/// The numbers that are still to be told.
fn push_all(text: &mut Vec<u8>, before: &mut Predecessors<'_>) -> Result<(), NoMemory>
    ensures numbers { OnOk result (text.new.items ≡ text.old.items ++ flat_map (λ (j : ℕ). codes " " ++ decimal j) before.old.left) }
    ensures graph { before.new.graph ≡ before.old.graph }
{
    while let Some(number) = before.next() {
        put_numbered(text, b" ", number as u64)?;
    }
    Ok(())
}

/// The word `after` and the numbers that are still to be told, if there are any.
fn push_after(text: &mut Vec<u8>, before: &mut Predecessors<'_>) -> Result<(), NoMemory>
    ensures numbers { OnOk result ((c : ClusterOf) → text.new.items ≡ text.old.items ++ texts.after_text c before.old.left) }
    ensures graph { before.new.graph ≡ before.old.graph }
{
    let Some(first) = before.next() else {
        return Ok(());
    };
    text.put(b" after")?;
    put_numbered(text, b" ", first as u64)?;
    push_all(text, before)
}

/// The line of an action of this number.
fn push_line(
    text: &mut Vec<u8>,
    cluster: &Cluster,
    before: &mut Predecessors<'_>,
    number: u32,
    action: Action,
) -> Result<(), NoMemory>
    requires from_one { 0 < number }
    requires to_count { number ≤ length before.old.graph.actions }
    ensures line { OnOk result (text.new.items ≡ text.old.items
        ++ texts.graph_line cluster.now (is_before before.old.graph) (length before.old.graph.actions) (number, action)) }
    ensures graph { before.new.graph ≡ before.old.graph }
{
    put_numbered(text, b"action ", number as u64)?;
    text.put(b" ")?;
    put_action(text, cluster, action)?;
    before.walk_to(number);
    push_after(text, before)?;
    text.put(b"\n")?;
    Ok(())
}

/// The text of a graph: each action in the order of the numbers, with its number and those of the actions that must have succeeded before it begins
/// (rule of this project). Its time is linear in the edges and in what is written, up to a logarithm. `NoMemory` comes when memory runs out.
pub fn graph_text(alloc: Global, cluster: &Cluster, graph: &Graph) -> Result<Vec<u8>, NoMemory>
    ensures { IfOk result (λ text. text.items ≡ texts.graph_text cluster.now graph.now.actions (is_before graph.now)) }
{
    let mut text = Vec::new(alloc);
    let mut before = Predecessors::new(alloc, graph)?;
    for place in 0..graph.count() {
        let number = place + 1;
        let action = graph.action(number);
        push_line(&mut text, cluster, &mut before, number, action)?;
    }
    Ok(text)
}
