//! Names of nodes and leaves.

ghost use Rattle.std.specs.Prelude.{◌≡◌, ◌++◌, OnOk};
ghost use Rattle.cluster_types.specs.Fields.{leaf_name};
ghost use Rattle.cluster_types.specs.Texts as texts;

use crate::line_text::LineText;
use cluster_types::{Cluster, LeafId, NodeId};
use faults::NoMemory;

/// The name of the node at a place, or no bytes past the last.
pub fn node_name(cluster: &Cluster, node: usize) -> &[u8]
    ensures { result.now ≡ texts.node_name cluster.now node }
{
    match cluster.nodes.as_slice().get(node) {
        Some(node) => node.name.bytes(),
        None => &[],
    }
}

/// A leaf and the node at a place, parted by a space.
pub(crate) fn put_leaf_on<T: LineText>(
    text: &mut T,
    cluster: &Cluster,
    leaf: LeafId,
    node: usize,
) -> Result<(), T::Error>
    ensures { OnOk result (T.kept text.new ≡ T.more (T.kept text.old) (texts.leaf_on cluster.now leaf node)) }
{
    text.put(cluster.leaf_name(leaf))?;
    text.put(b" ")?;
    text.put(node_name(cluster, node))
}

/// A word, and the name of a leaf.
pub(crate) fn put_leaf<T: LineText>(
    text: &mut T,
    cluster: &Cluster,
    word: &[u8],
    leaf: LeafId,
) -> Result<(), T::Error>
    ensures { OnOk result (T.kept text.new ≡ T.more (T.kept text.old) (word.now ++ leaf_name cluster.now leaf)) }
{
    text.put(word)?;
    text.put(cluster.leaf_name(leaf))
}

/// A word, and the name of a node.
pub(crate) fn put_node<T: LineText>(
    text: &mut T,
    cluster: &Cluster,
    word: &[u8],
    node: NodeId,
) -> Result<(), T::Error>
    ensures { OnOk result (T.kept text.new ≡ T.more (T.kept text.old) (word.now ++ texts.node_name cluster.now node)) }
{
    text.put(word)?;
    text.put(node_name(cluster, node as usize))
}

/// A word, and the leaf on the node.
pub(crate) fn put_on<T: LineText>(
    text: &mut T,
    cluster: &Cluster,
    word: &[u8],
    leaf: LeafId,
    node: NodeId,
) -> Result<(), T::Error>
    ensures { OnOk result (T.kept text.new ≡ T.more (T.kept text.old) (word.now ++ texts.leaf_on cluster.now leaf node)) }
{
    text.put(word)?;
    put_leaf_on(text, cluster, leaf, node as usize)
}

/// A leaf and the node at a place, parted by a space. `NoMemory` comes when memory runs out.
pub fn push_leaf_on(
    text: &mut Vec<u8>,
    cluster: &Cluster,
    leaf: LeafId,
    node: usize,
) -> Result<(), NoMemory>
    ensures { OnOk result (text.new.items ≡ text.old.items ++ texts.leaf_on cluster.now leaf node) }
{
    put_leaf_on(text, cluster, leaf, node)
}
