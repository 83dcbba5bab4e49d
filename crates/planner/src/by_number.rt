//! Actions in the order of their numbers.

ghost use Rattle.std.specs.Prelude.{◌≡◌, AllPairs, IfOk, true};
ghost use Rattle.std.specs.List.Sorted.{IsPermutation};
ghost use Rattle.cluster_types.specs.Numbers.{is_earlier};
ghost use Rattle.cluster_types.specs.Valid.{IsValid};
ghost use Rattle.planner.specs.PlannedActions.{AreOfSomePlan};

use crate::migrating_flags;
use cluster_types::{Action, Cluster, NoMemory};
use loops::ranks;
use std::alloc::Global;

/// The same actions in the order of their numbers. Where each stands in that order is found once.
pub fn in_number_order(
    alloc: Global,
    cluster: &Cluster,
    mut actions: Vec<Action>,
) -> Result<Vec<Action>, NoMemory>
    requires valid { IsValid cluster.now }
    requires planned { AreOfSomePlan cluster.now actions.items }
    ensures moved { IfOk result (λ sorted. IsPermutation actions.items sorted.items) }
    ensures in_order { IfOk result (λ sorted. AllPairs (λ x y. is_earlier cluster.now sorted.items x y ≡ true) sorted.items) }
{
    let ranks = ranks(alloc, cluster)?;
    let migrating = migrating_flags(alloc, cluster.leaves.len() as u32, actions.as_slice())?;
    let flags = migrating.as_slice();
    actions.sort_by_cached_key(|action| ranks.place(flags, action))?;
    Ok(actions)
}
