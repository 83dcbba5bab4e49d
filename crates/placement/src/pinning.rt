//! Which leaves are left as they are.

ghost use Rattle.std.specs.Prelude.{◌≡◌, ◌≤◌, List, length, map, IfOk};
ghost use Rattle.std.specs.List.{list_any, range_with_len};
ghost use Rattle.cluster_types.specs.declared.journal.Event.{Event};
ghost use Rattle.cluster_types.specs.declared.journal.Promotion.{Promotion as PromotionOf};
ghost use Rattle.cluster_types.specs.Pins.{pin_of};
ghost use Rattle.cluster_types.specs.UnpackedStates.{states_of};
ghost use Rattle.cluster_types.specs.Valid.{KeepsLimits};
ghost use Rattle.placement.specs.Inner.Pins as spec;

use cluster_types::{CellState, Cluster, LeafId, NoMemory, NodeId, Pin, States, cell_place};
use listed::Listed;
use std::alloc::{AllocError, Global};

fn is_blocked(cluster: &Cluster, states: &States, leaf: LeafId, node: NodeId) -> bool
    requires { length cluster.now.nodes ≤ 256 }
    ensures { result ≡ spec.is_blocked_by cluster.now states.now leaf node }
{
    let place = cell_place(cluster.nodes.len(), leaf, node);
    match states.cells.as_slice().get(place) {
        Some(cell) => cell.state == CellState::Blocked,
        None => false,
    }
}

/// Whether a failure blocks the leaf on some node.
fn is_blocked_somewhere(cluster: &Cluster, states: &States, leaf: LeafId) -> bool
    requires { length cluster.now.nodes ≤ 256 }
    ensures { result ≡ list_any (spec.is_blocked_by cluster.now states.now leaf) (range_with_len 0 (length cluster.now.nodes)) }
{
    (0..cluster.nodes.len() as u32).any(|node| is_blocked(cluster, states, leaf, node))
}

/// Why the leaf is left as it is, if it is (Pacemaker Explained, "is-managed" and "on-fail").
fn pin_of(cluster: &Cluster, states: &States, leaf: LeafId) -> Option<Pin>
    requires { length cluster.now.nodes ≤ 256 }
    ensures { result ≡ spec.pin_by cluster.now states.now leaf }
{
    if !cluster.is_managed(leaf) {
        Some(Pin::Unmanaged)
    } else if is_blocked_somewhere(cluster, states, leaf) {
        Some(Pin::Blocked)
    } else {
        None
    }
}

/// Of each leaf why it is left as it is, if it is.
fn all_pins(
    alloc: Global,
    cluster: &Cluster,
    states: &States,
) -> Result<Vec<Option<Pin>>, AllocError>
    requires { KeepsLimits cluster.now }
    ensures { IfOk result (λ pins. pins.items ≡ spec.pins_by cluster.now states.now) }
{
    let mut pins = Vec::with_capacity(alloc, cluster.leaves.len())?;
    for leaf in 0..cluster.leaves.len() {
        pins.push(pin_of(cluster, states, leaf as u32))?;
    }
    Ok(pins)
}

/// Of each leaf why it is left as it is, if it is: it isn't managed, or one of its cells is blocked (Pacemaker Explained, "is-managed" and "on-fail").
/// It asks that the cluster keeps its limits. What it gives is said of states that `unpack` gives. Out of memory is the only other answer.
pub fn pins(
    alloc: Global,
    cluster: &Cluster,
    states: &States,
) -> Result<Listed<Option<Pin>>, NoMemory>
    requires { KeepsLimits cluster.now }
    ensures { (events : List Event) (promotions : List PromotionOf) → states.now ≡ states_of cluster.now events promotions
        → IfOk result (λ pins. pins ≡ map (pin_of cluster.now events) (range_with_len 0 (length cluster.now.leaves))) }
{
    let all = all_pins(alloc, cluster, states)?;
    Ok(Listed::from(all))
}
