ghost use Rattle.std.specs.Prelude.{◌≡◌, ◌<◌, ◌++◌, ◌∷◌, [], OnOk};
ghost use Rattle.cluster_types.specs.Numbers.{is_step, link, step_of};
ghost use Rattle.loops.specs.Inner.Edges.{counts_link, edges_of, op_number, step_position};

use cluster_types::{Cluster, LeafId, Op};
use edges::Edge;
use std::alloc::AllocError;

/// An operation that changes a leaf, on whatever node.
#[derive(Clone, Copy)]
pub struct Step {
    pub what: Op,
    pub leaf: LeafId,
}

/// Which of the four positions of its leaf the operation has. A monitor is no step.
fn number(what: Op) -> u32
    ensures { result ≡ op_number what }
{
    match what {
        Op::Demote => 0,
        Op::Stop => 1,
        Op::Start => 2,
        Op::Promote => 3,
        Op::Monitor => 0,
    }
}

fn position(step: Step) -> u32
    requires { step.leaf < 1000000000 }
    ensures { result ≡ step_position (step_of step.what step.leaf) }
{
    4 * step.leaf + number(step.what)
}

/// Only promotable leaves have promote and demote steps.
fn is_there(cluster: &Cluster, step: Step) -> bool
    ensures { result ≡ is_step cluster.now (step_of step.what step.leaf) }
{
    matches!(step.what, Op::Start | Op::Stop) || cluster.is_promotable(step.leaf)
}

/// Whether both steps are there, and both give a role or both take one.
fn is_counted(cluster: &Cluster, before: Step, after: Step) -> bool
    ensures { result ≡ counts_link cluster.now (link before.what before.leaf after.what after.leaf) }
{
    before.what.is_giving() == after.what.is_giving()
        && is_there(cluster, before)
        && is_there(cluster, after)
}

/// Adds the edge of a link, if it counts.
pub fn push_link(
    edges: &mut Vec<Edge>,
    cluster: &Cluster,
    before: Step,
    after: Step,
) -> Result<(), AllocError>
    requires before { before.leaf < 1000000000 }
    requires after { after.leaf < 1000000000 }
    ensures { OnOk result (edges.new.items
        ≡ edges.old.items ++ edges_of cluster.now (link before.what before.leaf after.what after.leaf ∷ [])) }
{
    if is_counted(cluster, before, after) {
        edges.push(Edge {
            before: position(before),
            after: position(after),
        })?;
    }
    Ok(())
}
