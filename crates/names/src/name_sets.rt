//! The names of nodes and of leaves, as sets in the order of their numbers.

ghost use Rattle.std.specs.Prelude.{◌≡◌, ◌≢◌, ◌<◌, ◌≤◌, AllPairs, IfOk, IfSome, OnOk, length, position};
ghost use Rattle.cluster_types.specs.declared.leaf.Leaf.{Leaf as LeafOf};
ghost use Rattle.cluster_types.specs.declared.node.Node.{Node as NodeOf};
ghost use Rattle.crm_lex.specs.Names.{is};
ghost use Rattle.names.specs.Sets.{leaf_names, borrowed_names, node_names};
ghost use Rattle.names.specs.Inner.Sets.{with_name};

use cluster_types::{Leaf, Node};
use faults::NoMemory;
use indexmap::IndexSet;
use std::alloc::Global;

/// Adds the name behind the others, if it isn't one of them.
fn add<'c>(names: &mut IndexSet<&'c [u8]>, name: &'c [u8]) -> Result<(), NoMemory>
    ensures { OnOk result (borrowed_names names.new ≡ with_name (borrowed_names names.old) name.now) }
{
    names.insert(name)?;
    Ok(())
}

/// The names of the nodes. No two of them may be the same.
pub fn node_names<'c>(alloc: Global, nodes: &'c [Node]) -> Result<IndexSet<&'c [u8]>, NoMemory>
    requires { AllPairs (λ (one other : NodeOf). one.name ≢ other.name) nodes.now }
    ensures { IfOk result (λ names. borrowed_names names ≡ node_names nodes.now) }
{
    let mut names = IndexSet::with_capacity(alloc, nodes.len())?;
    for node in nodes {
        add(&mut names, node.name.bytes())?;
    }
    Ok(names)
}

/// The names of the leaves. No two of them may be the same.
pub fn leaf_names<'c>(alloc: Global, leaves: &'c [Leaf]) -> Result<IndexSet<&'c [u8]>, NoMemory>
    requires { AllPairs (λ (one other : LeafOf). one.name ≢ other.name) leaves.now }
    ensures { IfOk result (λ names. borrowed_names names ≡ leaf_names leaves.now) }
{
    let mut names = IndexSet::with_capacity(alloc, leaves.len())?;
    for leaf in leaves {
        add(&mut names, leaf.name.bytes())?;
    }
    Ok(names)
}

/// The index of the name. It asks for at most 1,000 names.
#[tactic(auto, using(crate::proofs::Places::position_map))]
pub fn place_of(names: &IndexSet<&[u8]>, word: &[u8]) -> Option<u32>
    requires { length (borrowed_names names.now) ≤ 1000 }
    ensures value { result ≡ position (is word.now) (borrowed_names names.now) }
    ensures within { IfSome result (λ place. place < length (borrowed_names names.now)) }
{
    let place = names.get_index_of(word)?;
    Some(place as u32)
}
