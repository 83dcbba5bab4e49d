//! What really is at first: what a journal says that may run, as far as it says anything.

ghost use Rattle.std.specs.Prelude.{◌≡◌, ◌<◌, ◌*◌, ◌+◌, ◌^◌, List, IfOk, OnOk, Some, is_some, true, length, slice_get};
ghost use Rattle.cluster_types.specs.CellStates.{last_outcome};
ghost use Rattle.cluster_types.specs.declared.journal.Event.{Event as EventOf};
ghost use Rattle.cluster_types.specs.Journals.{last_sign, moment_of};
ghost use Rattle.cluster_types.specs.Valid.{KeepsLimits};
ghost use Rattle.state_unpack.specs.Knowledge.{has_few_monitors};
ghost use Rattle.state_unpack.specs.KeptKnowledge.{Knows};
ghost use Rattle.simulated.specs.KeptReality.{ListsCells, ListsNodes, ShowsWorld};
ghost use Rattle.simulated.specs.RealWorlds as worlds;
ghost use Rattle.simulated.specs.Inner.Firsts.{HearsOutcomes, IsFilled};

use crate::heard_cells::heard_of;
use crate::{Real, Reality, Standing};
use cluster_types::{Cluster, Event, LeafId, NoMemory, NodeId, NodeState, cell_place};
use state_unpack::Known;
use std::alloc::{AllocError, Global};

/// How a node stands: a lost one that isn't off is unclean, and not because a failure wants it fenced, since it hasn't joined.
fn standing_of(known: &Known<'_>, node: NodeId) -> Standing
    requires { node < length known.now.cluster.nodes }
    ensures { (es : List EventOf) → Knows known.now.cluster es known.now → result ≡ worlds.standing_by known.now.cluster (last_sign node es) }
{
    if known.has_joined(node) {
        return Standing::Up;
    }
    match known.node_state(node) {
        NodeState::Unclean => Standing::Lost,
        NodeState::Online | NodeState::Offline => Standing::Off,
    }
}

/// What a leaf really does on a node: nothing, where nothing was heard.
fn real_of(known: &Known<'_>, is_heard: bool, leaf: LeafId, node: NodeId) -> Real
    requires leaf { leaf < length known.now.cluster.leaves }
    requires node { node < length known.now.cluster.nodes }
    ensures { (es : List EventOf) → Knows known.now.cluster es known.now → is_heard ≡ is_some (last_outcome known.now.cluster leaf node es)
        → result ≡ worlds.first_real known.now.cluster es leaf node }
{
    if !is_heard {
        Real::Off
    } else if known.may_promoted(leaf, node) {
        Real::Promoted
    } else if known.may(leaf, node) {
        Real::Started
    } else {
        Real::Off
    }
}

fn first_nodes(alloc: Global, known: &Known<'_>) -> Result<Vec<Standing>, AllocError>
    requires { KeepsLimits known.now.cluster }
    ensures len { IfOk result (λ nodes. length nodes.items ≡ length known.now.cluster.nodes) }
    ensures held { (es : List EventOf) → Knows known.now.cluster es known.now → IfOk result (λ nodes.
        ListsNodes (length known.now.cluster.nodes) nodes.items (λ n. worlds.standing_by known.now.cluster (last_sign n es))) }
{
    let count = known.cluster().nodes.len();
    let mut nodes = Vec::with_capacity(alloc, count)?;
    for node in 0..count {
        nodes.push(standing_of(known, node as u32))?;
    }
    Ok(nodes)
}

/// Whether anything was heard of the cell at this place.
fn heard_at(heard: &[bool], place: usize) -> bool
    requires { place < length heard.now }
    ensures { slice_get heard.now place ≡ Some result }
{
    heard[place]
}

/// The cells of a leaf, node by node, behind those of the leaves before it.
fn push_row(
    known: &Known<'_>,
    heard: &[bool],
    leaf: LeafId,
    cells: &mut Vec<Real>,
) -> Result<(), AllocError>
    requires limits { KeepsLimits known.now.cluster }
    requires full { length heard.now ≡ length known.now.cluster.leaves * length known.now.cluster.nodes }
    requires leaf { leaf < length known.now.cluster.leaves }
    requires before { length cells.old.items ≡ leaf * length known.now.cluster.nodes }
    ensures len { OnOk result (length cells.new.items ≡ (leaf + 1) * length known.now.cluster.nodes) }
    ensures filled { (es : List EventOf) → Knows known.now.cluster es known.now → HearsOutcomes known.now.cluster es heard.now
        → IsFilled known.now.cluster cells.old.items (worlds.first_real known.now.cluster es)
        → OnOk result (IsFilled known.now.cluster cells.new.items (worlds.first_real known.now.cluster es)) }
{
    let nodes = known.cluster().nodes.len();
    for node in 0..nodes {
        let place = cell_place(nodes, leaf, node as u32);
        cells.push(real_of(known, heard_at(heard, place), leaf, node as u32))?;
    }
    Ok(())
}

/// What each leaf really does on each node, leaf by leaf and node by node.
fn first_cells(alloc: Global, known: &Known<'_>, heard: &[bool]) -> Result<Vec<Real>, AllocError>
    requires limits { KeepsLimits known.now.cluster }
    requires full { length heard.now ≡ length known.now.cluster.leaves * length known.now.cluster.nodes }
    ensures len { IfOk result (λ cells. length cells.items ≡ length known.now.cluster.leaves * length known.now.cluster.nodes) }
    ensures held { (es : List EventOf) → Knows known.now.cluster es known.now → HearsOutcomes known.now.cluster es heard.now
        → IfOk result (λ cells. ListsCells known.now.cluster cells.items (worlds.first_real known.now.cluster es)) }
{
    let count = known.cluster().leaves.len();
    let mut cells = Vec::with_capacity(alloc, heard.len())?;
    for leaf in 0..count {
        push_row(known, heard, leaf as u32, &mut cells)?;
    }
    Ok(cells)
}

/// The simulated cluster of a number, as these events leave it.
pub(crate) fn first_reality<'c>(
    alloc: Global,
    cluster: &'c Cluster,
    events: &[Event],
    number: u32,
) -> Result<Reality<'c>, NoMemory>
    requires limits { KeepsLimits cluster.now }
    requires monitors { has_few_monitors cluster.now ≡ true }
    requires moment { moment_of events.now < 2 ^ 64 }
    ensures shows { IfOk result (λ reality. ShowsWorld reality (worlds.first_world cluster.now events.now)) }
    ensures cluster { IfOk result (λ reality. reality.cluster ≡ cluster.now) }
    ensures number { IfOk result (λ reality. reality.number ≡ number) }
{
    let known = Known::new(alloc, cluster, events)?;
    let heard = heard_of(alloc, cluster, events)?;
    let nodes = first_nodes(alloc, &known)?;
    let cells = first_cells(alloc, &known, heard.as_slice())?;
    Ok(Reality::new(cluster, nodes, cells, number))
}
