//! The ranks of the steps of a cluster.

ghost use Rattle.std.specs.Prelude.{◌≡◌, IfOk, slice_index_or};
ghost use Rattle.cluster_types.specs.declared.cluster.Cluster.{Cluster as ClusterOf};
ghost use Rattle.cluster_types.specs.Numbers as numbers;
ghost use Rattle.cluster_types.specs.Valid.{IsValid};
ghost use Rattle.loops.specs.Inner.RankList as rank_list;
ghost use Rattle.loops.specs.Ranks.{AreRanks, rank_of};

use crate::link_edges;
use cluster_types::{Cluster, LeafId, NoMemory, Op};
use edges::longest_ways;
use std::alloc::Global;
use std::marker::Model;

/// The rank of each step of a cluster: how many links the longest chain to it has. Contracts see a table of steps with their
/// ranks.
#[derive(Drop)]
pub struct StepRanks {
    /// Of each leaf those of its demote, its stop, its start and its promote.
    ranks: Vec<u32>,
}

impl Model for StepRanks {
    ghost use Rattle.std.specs.Prelude.{List};
    ghost use Rattle.loops.specs.Ranks.{RankedStep};
    ghost use Rattle.loops.specs.Inner.RankList.{all_ranked};

    ghost Value = { List RankedStep };

    ghost view = { λ all. all_ranked all.ranks.items };
}

fn rank_at(ranks: &[u32], place: usize) -> u32
    ensures { result ≡ slice_index_or ranks.now place 0 }
{
    match ranks.get(place) {
        Some(rank) => *rank,
        None => 0,
    }
}

fn rank_in(ranks: &[u32], what: Op, leaf: LeafId) -> u32
    ensures { result ≡ rank_list.rank_in ranks.now what leaf }
{
    let first = 4 * leaf as usize;
    match what {
        Op::Demote => rank_at(ranks, first),
        Op::Stop => rank_at(ranks, first + 1),
        Op::Start => rank_at(ranks, first + 2),
        Op::Promote => rank_at(ranks, first + 3),
        Op::Monitor => 0,
    }
}

impl StepRanks {
    /// The rank of this step of the leaf: how many links the longest chain to it has. A monitor is no step, and has rank 0; so has every
    /// step of a leaf that the cluster doesn't have.
    pub fn rank(&self, what: Op, leaf: LeafId) -> u32
        ensures given { result ≡ rank_of self.now (numbers.step_of what leaf) }
        ensures ranked { (c : ClusterOf) → AreRanks c self.now → result ≡ numbers.rank c (numbers.step_of what leaf) }
    {
        rank_in(self.ranks.as_slice(), what, leaf)
    }
}

/// The rank of each step of a valid cluster (rule of this project). Out of memory is the only other answer. The time is linear in the
/// leaves and the orders.
pub fn ranks(alloc: Global, cluster: &Cluster) -> Result<StepRanks, NoMemory>
    requires { IsValid cluster.now }
    ensures { IfOk result (λ all. AreRanks cluster.now all) }
{
    let edges = link_edges(alloc, cluster)?;
    let positions = 4 * cluster.leaves.len() as u32;
    let ranks = longest_ways(alloc, positions, edges.as_slice())?;
    Ok(StepRanks { ranks })
}
