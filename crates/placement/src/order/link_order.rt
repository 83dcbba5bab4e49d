//! The order in which keys are lent along links.

ghost use Rattle.std.specs.Prelude.{◌≡◌, IfOk};
ghost use Rattle.std.specs.List.Sorted.{IsPermutation};
ghost use Rattle.cluster_types.specs.Valid.{IsValid};
ghost use Rattle.placement.specs.Inner.Links.{links_in};

use crate::chain_order::put_in_order;
use crate::order::decision_set::DecisionSet;
use crate::order::links::links_of;
use edges::Edge;
use std::alloc::{AllocError, Global};

/// A link for each need of a decision by another, each behind those that lend to the slot from which it lends, where
/// keys come back to none. A key is lent against the way of its link.
pub(crate) fn links_in_order(alloc: Global, set: &DecisionSet) -> Result<Vec<Edge>, AllocError>
    requires { IsValid set.now.cluster.now }
    ensures { IfOk result (λ links. IsPermutation (links_in set.now.cluster.now set.now.list.items) links.items) }
{
    let mut links = links_of(alloc, set)?;
    put_in_order(alloc, 2 * set.cluster.leaves.len() as u32, &mut links)?;
    links.reverse();
    Ok(links)
}
