//! What actions do to what runs.

ghost use Rattle.std.specs.Prelude.{◌≡◌, ◌*◌, if◌then◌else◌, length};
ghost use Rattle.cluster_types.specs.Valid.{KeepsLimits};
ghost use Rattle.simulated.specs.KeptReality.{ListsCells};
ghost use Rattle.cluster_types.specs.Fields.{is_promotable};
ghost use Rattle.simulated.specs.declared.real.Real.TheVariants as real;
ghost use Rattle.simulated.specs.RealWorlds as worlds;
ghost use Rattle.simulated.specs.RealWorlds.{Cells, after_op, begun, demoted, done, is_there, undone, with_changed_cell};

use crate::cells::{clear_node, found_at, set_cell};
use crate::real::Real;
use cluster_types::exit_codes::{NOT_RUNNING, RUNNING_PROMOTED, SUCCESS};
use cluster_types::{Action, Cluster, LeafId, NodeId, Op};

/// The leaf is set to this on a node, if anything of it is found on another.
pub fn set_if_found(
    cluster: &Cluster,
    leaf: LeafId,
    node: NodeId,
    other: NodeId,
    real: Real,
    cells: &mut Vec<Real>,
)
    requires { length cells.old.items ≡ length cluster.now.leaves * length cluster.now.nodes }
    ensures held { (held : Cells) → ListsCells cluster.now cells.old.items held
        → ListsCells cluster.now cells.new.items (if is_there (worlds.found_at cluster.now held leaf other) then with_changed_cell leaf node (λ x. real) held else held) }
    ensures len { length cells.new.items ≡ length cells.old.items }
{
    if found_at(cluster, leaf, other, cells.as_slice()).is_there() {
        set_cell(cluster, leaf, node, real, cells);
    }
}

/// An action begins. Once a migration is sent, its leaf runs on the target too, if it is there on the source.
pub fn begin(cluster: &Cluster, action: Action, cells: &mut Vec<Real>)
    requires { length cells.old.items ≡ length cluster.now.leaves * length cluster.now.nodes }
    ensures held { (held : Cells) → ListsCells cluster.now cells.old.items held → ListsCells cluster.now cells.new.items (begun cluster.now action held) }
    ensures len { length cells.new.items ≡ length cells.old.items }
{
    match action {
        Action::MigrateTo {
            leaf,
            source,
            target,
        } => set_if_found(cluster, leaf, target, source, Real::Started, cells),
        Action::Fence { .. }
        | Action::Probe { .. }
        | Action::Operation { .. }
        | Action::MigrateFrom { .. } => {}
    }
}

/// A promoted cell is only started from now on.
fn demote(cluster: &Cluster, leaf: LeafId, node: NodeId, cells: &mut Vec<Real>)
    requires { length cells.old.items ≡ length cluster.now.leaves * length cluster.now.nodes }
    ensures held { (held : Cells) → ListsCells cluster.now cells.old.items held → ListsCells cluster.now cells.new.items (with_changed_cell leaf node demoted held) }
    ensures len { length cells.new.items ≡ length cells.old.items }
{
    if found_at(cluster, leaf, node, cells.as_slice()).is_promoted() {
        set_cell(cluster, leaf, node, Real::Started, cells);
    }
}

/// What a promote makes of a cell of the leaf.
fn promoted(cluster: &Cluster, leaf: LeafId) -> Real
    ensures { result ≡ (if is_promotable cluster.now leaf then real.Promoted else real.Started) }
{
    if cluster.is_promotable(leaf) {
        Real::Promoted
    } else {
        Real::Started
    }
}

/// An operation of a leaf on a node is done.
fn do_op(cluster: &Cluster, op: Op, leaf: LeafId, node: NodeId, cells: &mut Vec<Real>)
    requires { length cells.old.items ≡ length cluster.now.leaves * length cluster.now.nodes }
    ensures held { (held : Cells) → ListsCells cluster.now cells.old.items held
        → ListsCells cluster.now cells.new.items (with_changed_cell leaf node (after_op cluster.now op leaf) held) }
    ensures len { length cells.new.items ≡ length cells.old.items }
{
    match op {
        Op::Start => set_cell(cluster, leaf, node, Real::Started, cells),
        Op::Stop => set_cell(cluster, leaf, node, Real::Off, cells),
        Op::Promote => set_cell(cluster, leaf, node, promoted(cluster, leaf), cells),
        Op::Demote => demote(cluster, leaf, node, cells),
        Op::Monitor => {}
    }
}

/// An action is done. What was sent runs no more on its source, if it is there on the target.
pub fn act(cluster: &Cluster, action: Action, cells: &mut Vec<Real>)
    requires limits { KeepsLimits cluster.now }
    requires full { length cells.old.items ≡ length cluster.now.leaves * length cluster.now.nodes }
    ensures held { (held : Cells) → ListsCells cluster.now cells.old.items held → ListsCells cluster.now cells.new.items (done cluster.now action held) }
    ensures len { length cells.new.items ≡ length cells.old.items }
{
    match action {
        Action::Fence { node } => clear_node(cluster, node, cells),
        Action::Probe { .. } | Action::MigrateFrom { .. } => {}
        Action::Operation { op, leaf, node, .. } => do_op(cluster, op, leaf, node, cells),
        Action::MigrateTo {
            leaf,
            source,
            target,
        } => set_if_found(cluster, leaf, source, target, Real::Off, cells),
    }
}

/// An action isn't done. A leaf that was to be sent stops on its target, if it is there on its source.
pub fn undo(cluster: &Cluster, action: Action, cells: &mut Vec<Real>)
    requires { length cells.old.items ≡ length cluster.now.leaves * length cluster.now.nodes }
    ensures held { (held : Cells) → ListsCells cluster.now cells.old.items held → ListsCells cluster.now cells.new.items (undone cluster.now action held) }
    ensures len { length cells.new.items ≡ length cells.old.items }
{
    match action {
        Action::MigrateTo {
            leaf,
            source,
            target,
        } => set_if_found(cluster, leaf, target, source, Real::Off, cells),
        Action::Fence { .. }
        | Action::Probe { .. }
        | Action::Operation { .. }
        | Action::MigrateFrom { .. } => {}
    }
}

/// The exit code of an agent that looks.
fn looked(real: Real) -> u8
    ensures { result ≡ worlds.code_of_look real }
{
    match real {
        Real::Off => NOT_RUNNING,
        Real::Rising | Real::Started => SUCCESS,
        Real::Promoted => RUNNING_PROMOTED,
    }
}

/// The exit code with which the action ends when it does what it is for.
pub fn true_code(cluster: &Cluster, action: Action, cells: &[Real]) -> u8
    requires { length cells.now ≡ length cluster.now.leaves * length cluster.now.nodes }
    ensures { (held : Cells) → ListsCells cluster.now cells.now held → result ≡ worlds.true_code cluster.now action held }
{
    match action {
        Action::Probe { leaf, node } => looked(found_at(cluster, leaf, node, cells)),
        Action::Operation {
            op: Op::Monitor,
            leaf,
            node,
            ..
        } => looked(found_at(cluster, leaf, node, cells)),
        Action::Operation {
            op: Op::Start | Op::Stop | Op::Promote | Op::Demote,
            ..
        }
        | Action::Fence { .. }
        | Action::MigrateTo { .. }
        | Action::MigrateFrom { .. } => SUCCESS,
    }
}
