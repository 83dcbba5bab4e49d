//! The targets of the leaves that are left as they are.

ghost use Rattle.std.specs.Prelude.{◌≡◌, ◌≤◌, ◌*◌, ◌++◌, if◌then◌else◌, List, length, map, IfOk, OnOk};
ghost use Rattle.std.specs.List.{range_with_len};
ghost use Rattle.cluster_types.specs.declared.journal.Event.{Event};
ghost use Rattle.cluster_types.specs.declared.journal.Promotion.{Promotion as PromotionOf};
ghost use Rattle.cluster_types.specs.declared.placement.Target.TheVariants as target;
ghost use Rattle.cluster_types.specs.Pins.{pin_of, pinned_targets};
ghost use Rattle.cluster_types.specs.Tables.{targets_of};
ghost use Rattle.cluster_types.specs.UnpackedStates.{states_of};
ghost use Rattle.cluster_types.specs.Valid.{KeepsLimits};
ghost use Rattle.placement.specs.Scores.{cells_of};
ghost use Rattle.placement.specs.Inner.Pins as spec;

use cluster_types::{
    CellState, Cluster, LeafId, NoMemory, NodeId, Pin, States, Table, Target, cell_place, is_pinned,
};
use listed::Listed;
use std::alloc::{AllocError, Global};

/// The target of a pinned leaf on a node: where it may run and was probed it stays, in the role that it may have there.
fn stay(cluster: &Cluster, states: &States, leaf: LeafId, node: NodeId) -> Target
    requires { length cluster.now.nodes ≤ 256 }
    ensures { result ≡ spec.stay_by cluster.now states.now leaf node }
{
    let place = cell_place(cluster.nodes.len(), leaf, node);
    match states.cells.as_slice().get(place) {
        Some(cell) if states.is_online(node) && cell.may && cell.state != CellState::Unprobed => {
            if cell.may_promoted {
                Target::Promoted
            } else {
                Target::Started
            }
        }
        _ => Target::Nowhere,
    }
}

/// What stands in a cell before any decision.
fn target_of(cluster: &Cluster, states: &States, pinned: bool, leaf: LeafId, node: NodeId) -> Target
    requires { length cluster.now.nodes ≤ 256 }
    ensures { result ≡ (if pinned then spec.stay_by cluster.now states.now leaf node else target.Nowhere) }
{
    if pinned {
        stay(cluster, states, leaf, node)
    } else {
        Target::Nowhere
    }
}

/// Adds the targets of a leaf, node by node.
fn push_row(
    cluster: &Cluster,
    states: &States,
    leaf: LeafId,
    pinned: bool,
    targets: &mut Vec<Target>,
) -> Result<(), AllocError>
    requires { length cluster.now.nodes ≤ 256 }
    ensures { OnOk result (targets.new.items ≡ targets.old.items
        ++ map (λ n. if pinned then spec.stay_by cluster.now states.now leaf n else target.Nowhere) (range_with_len 0 (length cluster.now.nodes))) }
{
    for node in 0..cluster.nodes.len() {
        targets.push(target_of(cluster, states, pinned, leaf, node as u32))?;
    }
    Ok(())
}

/// The targets that stand before any decision, leaf by leaf and node by node.
fn targets_before(
    alloc: Global,
    cluster: &Cluster,
    states: &States,
    pins: &[Option<Pin>],
) -> Result<Vec<Target>, AllocError>
    requires { KeepsLimits cluster.now }
    ensures { IfOk result (λ targets. targets.items ≡ cells_of cluster.now (spec.pinned_in cluster.now pins.now states.now)) }
{
    let mut targets = Vec::with_capacity(alloc, cluster.leaves.len() * cluster.nodes.len())?;
    for leaf in 0..cluster.leaves.len() {
        let pinned = is_pinned(pins, leaf as u32);
        push_row(cluster, states, leaf as u32, pinned, &mut targets)?;
    }
    Ok(targets)
}

/// The table that stands before any decision: a leaf that is left as it is has a target on each online node where it may run and that was probed for
/// it, Promoted where it may be promoted there, else Started. No other leaf has one (rule of this project). The pins are those that `pins` gives of
/// these states. It asks that the cluster keeps its limits. Out of memory is the only other answer.
pub fn pinned_table(
    alloc: Global,
    cluster: &Cluster,
    states: &States,
    pins: &[Option<Pin>],
) -> Result<Table, NoMemory>
    requires { KeepsLimits cluster.now }
    ensures nodes { IfOk result (λ table. table.nodes ≡ length cluster.now.nodes) }
    ensures size { IfOk result (λ table. length table.targets ≡ length cluster.now.leaves * length cluster.now.nodes) }
    ensures targets { (events : List Event) (promotions : List PromotionOf) → states.now ≡ states_of cluster.now events promotions
        → pins.now ≡ map (pin_of cluster.now events) (range_with_len 0 (length cluster.now.leaves))
        → IfOk result (λ table. targets_of table ≡ pinned_targets cluster.now events) }
{
    let targets = targets_before(alloc, cluster, states, pins)?;
    Ok(Table {
        nodes: cluster.nodes.len() as u32,
        targets: Listed::from(targets),
    })
}
