//! What really runs, line by line.

ghost use Rattle.std.specs.Prelude.{◌≡◌, ◌++◌, codes, length, OnOk};
ghost use Rattle.std.specs.List.{flat_map, range_with_len};
ghost use Rattle.cluster_types.specs.Texts as texts;
ghost use Rattle.cluster_types.specs.Valid.{KeepsLimits};
ghost use Rattle.simulated.specs.KeptReality.{ShowsWorld};
ghost use Rattle.simulated.specs.RealWorlds.{RealWorld};
ghost use Rattle.simulated.specs.WorldTexts as spec;

use crate::{Real, World};
use cluster_types::{Cluster, LeafId, NodeId};
use faults::NoMemory;
use trace_text::node_name;

/// The leaf and the node, and what stands behind them in their line.
fn push_cell(
    text: &mut Vec<u8>,
    cluster: &Cluster,
    leaf: LeafId,
    node: NodeId,
    word: &[u8],
) -> Result<(), NoMemory>
    ensures { OnOk result (text.new.items ≡ text.old.items ++ (codes "real " ++ texts.leaf_on cluster.now leaf node ++ word.now)) }
{
    text.extend_from_slice(b"real ")?;
    text.extend_from_slice(cluster.leaf_name(leaf))?;
    text.extend_from_slice(b" ")?;
    text.extend_from_slice(node_name(cluster, node as usize))?;
    text.extend_from_slice(word)?;
    Ok(())
}

/// The line of a leaf on a node, if it really runs there.
fn push_real(
    text: &mut Vec<u8>,
    cluster: &Cluster,
    leaf: LeafId,
    node: NodeId,
    real: Real,
) -> Result<(), NoMemory>
    ensures { OnOk result (text.new.items ≡ text.old.items ++ spec.real_line cluster.now leaf node real) }
{
    match real {
        Real::Off => Ok(()),
        Real::Rising => Ok(()),
        Real::Started => push_cell(text, cluster, leaf, node, b" started\n"),
        Real::Promoted => push_cell(text, cluster, leaf, node, b" promoted\n"),
    }
}

/// The lines of a leaf, in the order of nodes.
fn push_row(
    text: &mut Vec<u8>,
    cluster: &Cluster,
    world: &World<'_>,
    leaf: LeafId,
) -> Result<(), NoMemory>
    requires limits { KeepsLimits cluster.now }
    requires same { world.now.reality.cluster ≡ cluster.now }
    ensures { (w : RealWorld) → ShowsWorld world.now.reality w → OnOk result (text.new.items ≡ text.old.items ++ spec.real_row cluster.now w.cells leaf) }
{
    for node in 0..cluster.nodes.len() as u32 {
        push_real(text, cluster, leaf, node, world.real(leaf, node))?;
    }
    Ok(())
}

/// A line for each leaf and node where it really runs, leaf by leaf and node by node.
pub(crate) fn push_real_lines(
    text: &mut Vec<u8>,
    cluster: &Cluster,
    world: &World<'_>,
) -> Result<(), NoMemory>
    requires limits { KeepsLimits cluster.now }
    requires same { world.now.reality.cluster ≡ cluster.now }
    ensures { (w : RealWorld) → ShowsWorld world.now.reality w → OnOk result (text.new.items ≡ text.old.items ++ spec.real_lines cluster.now w.cells) }
{
    for leaf in 0..cluster.leaves.len() as u32 {
        push_row(text, cluster, world, leaf)?;
    }
    Ok(())
}
