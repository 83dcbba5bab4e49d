//! Starts that were given up, and come true later.

ghost use Rattle.std.specs.Prelude.{◌≡◌, ◌*◌, None, length};
ghost use Rattle.simulated.specs.KeptReality.{ListsCells, IsAlone};
ghost use Rattle.simulated.specs.RealWorlds.{Cells, given_up, given_up_op, risen, rising_from, with_changed_cell};

use crate::acts::set_if_found;
use crate::cells::{found_at, set_cell};
use crate::real::Real;
use cluster_types::{Action, Cluster, LeafId, NodeId, Op};

/// The one cell that comes up has come up.
pub fn raise(cluster: &Cluster, rising: Option<(LeafId, NodeId)>, cells: &mut Vec<Real>)
    requires { length cells.old.items ≡ length cluster.now.leaves * length cluster.now.nodes }
    ensures held { (held : Cells) → ListsCells cluster.now cells.old.items held → IsAlone cluster.now rising held
        → ListsCells cluster.now cells.new.items (λ r n. risen (held r n)) }
    ensures len { length cells.new.items ≡ length cells.old.items }
{
    let Some((leaf, node)) = rising else {
        return;
    };
    if found_at(cluster, leaf, node, cells.as_slice()).is_rising() {
        set_cell(cluster, leaf, node, Real::Started, cells);
    }
}

/// A start that is given up comes true later, where nothing is found. The cell that comes up.
fn let_rise(
    cluster: &Cluster,
    leaf: LeafId,
    node: NodeId,
    cells: &mut Vec<Real>,
) -> Option<(LeafId, NodeId)>
    requires { length cells.old.items ≡ length cluster.now.leaves * length cluster.now.nodes }
    ensures held { (held : Cells) → ListsCells cluster.now cells.old.items held → ListsCells cluster.now cells.new.items (with_changed_cell leaf node rising_from held) }
    ensures alone { (held : Cells) → ListsCells cluster.now cells.old.items held → IsAlone cluster.now None held
        → IsAlone cluster.now result (with_changed_cell leaf node rising_from held) }
    ensures len { length cells.new.items ≡ length cells.old.items }
{
    if found_at(cluster, leaf, node, cells.as_slice()).is_there() {
        return None;
    }
    set_cell(cluster, leaf, node, Real::Rising, cells);
    Some((leaf, node))
}

/// An operation isn't done in time. The cell that comes up.
fn give_up_op(
    cluster: &Cluster,
    op: Op,
    leaf: LeafId,
    node: NodeId,
    cells: &mut Vec<Real>,
) -> Option<(LeafId, NodeId)>
    requires { length cells.old.items ≡ length cluster.now.leaves * length cluster.now.nodes }
    ensures held { (held : Cells) → ListsCells cluster.now cells.old.items held → ListsCells cluster.now cells.new.items (given_up_op cluster.now op leaf node held) }
    ensures alone { (held : Cells) → ListsCells cluster.now cells.old.items held → IsAlone cluster.now None held
        → IsAlone cluster.now result (given_up_op cluster.now op leaf node held) }
    ensures len { length cells.new.items ≡ length cells.old.items }
{
    match op {
        Op::Start => let_rise(cluster, leaf, node, cells),
        Op::Stop | Op::Promote | Op::Demote | Op::Monitor => None,
    }
}

/// An action isn't done in time: what a start finds off comes up later, and a migration is undone. The cell that comes up.
pub fn give_up(cluster: &Cluster, action: Action, cells: &mut Vec<Real>) -> Option<(LeafId, NodeId)>
    requires { length cells.old.items ≡ length cluster.now.leaves * length cluster.now.nodes }
    ensures held { (held : Cells) → ListsCells cluster.now cells.old.items held → ListsCells cluster.now cells.new.items (given_up cluster.now action held) }
    ensures alone { (held : Cells) → ListsCells cluster.now cells.old.items held → IsAlone cluster.now None held
        → IsAlone cluster.now result (given_up cluster.now action held) }
    ensures len { length cells.new.items ≡ length cells.old.items }
{
    match action {
        Action::Operation { op, leaf, node, .. } => give_up_op(cluster, op, leaf, node, cells),
        Action::MigrateTo {
            leaf,
            source,
            target,
        } => {
            set_if_found(cluster, leaf, target, source, Real::Off, cells);
            None
        }
        Action::Fence { .. } | Action::Probe { .. } | Action::MigrateFrom { .. } => None,
    }
}
