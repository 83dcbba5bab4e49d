//! What all rules read.

ghost use Rattle.std.specs.Prelude.{◌≡◌, ◌+◌, ◌*◌, ◌<◌, ◌≤◌, All, AllPairs, Contains, length, true};
ghost use Rattle.cluster_types.specs.declared.journal.Action.{Action as ActionOf};
ghost use Rattle.cluster_types.specs.declared.rules.Colocation.{Colocation as ColocationOf};
ghost use Rattle.cluster_types.specs.declared.rules.Order.{Order as OrderOf};
ghost use Rattle.cluster_types.specs.Numbers.{is_earlier};
ghost use Rattle.cluster_types.specs.Plans.{most_edges};
ghost use Rattle.planner.specs.Inner.Index.{IsIndex};
ghost use Rattle.planner.specs.Inner.Rooms.{all_within_prop};
ghost use Rattle.planner.specs.ActionNames.{IsActionWithin};
ghost use Rattle.loops.specs.Ranks.{AreMigrating};

use cluster_types::{Action, Cluster};
use listed::Listed;

/// Actions of a valid cluster in the order of their numbers, which leaves migrate by them, and at which positions the actions of each leaf
/// stand.
#[derive(Drop)]
pub(crate) struct Known<'c> {
    pub(crate) cluster: &'c Cluster,
    pub(crate) actions: &'c [Action],
    pub(crate) migrating: &'c [bool],
    pub(crate) index: &'c [Listed<u32>],
    pub(crate) ghost leaves: { length cluster.now.leaves ≤ 1000 },
    pub(crate) ghost nodes: { length cluster.now.nodes ≤ 256 },
    pub(crate) ghost cells: { length cluster.now.nodes * length cluster.now.leaves ≤ 256000 },
    pub(crate) ghost rules: { length cluster.now.colocations + length cluster.now.orders ≤ 2000 },
    pub(crate) ghost dependents: { All (λ (col : ColocationOf). col.dependent < length cluster.now.leaves) cluster.now.colocations },
    pub(crate) ghost primaries: { All (λ (col : ColocationOf). col.primary < length cluster.now.leaves) cluster.now.colocations },
    pub(crate) ghost firsts: { All (λ (o : OrderOf). o.first < length cluster.now.leaves) cluster.now.orders },
    pub(crate) ghost thens: { All (λ (o : OrderOf). o.then_leaf < length cluster.now.leaves) cluster.now.orders },
    pub(crate) ghost short: { length actions.now ≤ 2000000000 },
    pub(crate) ghost few: { most_edges cluster.now actions.now ≤ 2000000000 },
    pub(crate) ghost inside: { (a : ActionOf) → Contains actions.now a → IsActionWithin cluster.now a } by { all_within_prop cluster.now actions.now },
    pub(crate) ghost in_order: { AllPairs (λ x y. is_earlier cluster.now actions.now x y ≡ true) actions.now },
    pub(crate) ghost flagged: { AreMigrating actions.now migrating.now },
    pub(crate) ghost indexed: { IsIndex actions.now (length cluster.now.leaves) index.now },
}
