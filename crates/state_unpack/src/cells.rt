//! What is known of a cell, by what is kept of it.

ghost use Rattle.std.specs.Prelude.{◌≡◌, ◌≤◌, ◌*◌, if◌then◌else◌};
ghost use Rattle.state_unpack.specs.Inner.CellsKept as spec;

use crate::Tally;
use crate::facts::Facts;
use cluster_types::{Cell, CellState, Cluster, LeafId};

fn bit(on: bool, bit: u8) -> u8
    ensures value { result ≡ bit * (if on then 1 else 0) }
    ensures high { result ≤ bit }
{
    if on { bit } else { 0 }
}

fn bits_of(running: [bool; 8]) -> u8
    ensures { result ≡ spec.bits_of running }
{
    bit(running[0], 1)
        + bit(running[1], 2)
        + bit(running[2], 4)
        + bit(running[3], 8)
        + bit(running[4], 16)
        + bit(running[5], 32)
        + bit(running[6], 64)
        + bit(running[7], 128)
}

/// What the failures of a cell of the leaf come to that count at the moment `now`, in seconds.
pub fn counted_of(cluster: &Cluster, leaf: LeafId, now: u128, facts: Facts) -> Tally
    ensures { result ≡ spec.counted_of cluster.now leaf now facts }
{
    facts.tally.counted(cluster, leaf, now)
}

fn state_from(cluster: &Cluster, leaf: LeafId, now: u128, online: bool, facts: Facts) -> CellState
    ensures { result ≡ spec.state_from cluster.now leaf now online facts }
{
    if !online {
        CellState::Away
    } else if !facts.seen {
        CellState::Unprobed
    } else if counted_of(cluster, leaf, now, facts).block {
        CellState::Blocked
    } else if facts.may && (facts.left || facts.awaited) {
        CellState::Failed
    } else if cluster.is_promotable(leaf) && facts.promoted {
        CellState::Promoted
    } else if facts.may {
        CellState::On
    } else {
        CellState::Off
    }
}

/// What is known of a cell of the leaf at the moment `now`, in seconds, on a node that is online or isn't. `fatal` says whether a failure on some node
/// keeps the leaf from all nodes.
pub fn cell_from(
    cluster: &Cluster,
    leaf: LeafId,
    now: u128,
    fatal: bool,
    online: bool,
    facts: Facts,
) -> Cell
    ensures { result ≡ spec.cell_from cluster.now leaf now fatal online facts }
{
    Cell {
        state: state_from(cluster, leaf, now, online, facts),
        may: facts.may,
        may_promoted: cluster.is_promotable(leaf) && facts.promoted,
        banned: counted_of(cluster, leaf, now, facts).bans(cluster, leaf) || fatal,
        running: bits_of(facts.running),
    }
}
