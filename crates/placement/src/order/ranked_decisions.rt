//! Decisions with the keys by which they are compared.

ghost use Rattle.std.specs.Prelude.{◌≡◌, ◌<◌, List, Contains, length, map, IfOk, OnOk};
ghost use Rattle.std.specs.Ordering.{is_lt};
ghost use Rattle.cluster_types.specs.declared.placement.Decision.{Decision as DecisionOf};
ghost use Rattle.cluster_types.specs.Decisions as decisions;
ghost use Rattle.placement.specs.declared.order.ranked_decisions.Ranked.{Ranked as RankedOf};
ghost use Rattle.placement.specs.Inner.Turns as spec;
ghost use Rattle.placement.specs.Inner.Turns.{AreSorted, ranked_by, ranks_before};

use crate::order::decision_set::DecisionSet;
use crate::order::flags::slot_of;
use crate::order::keys::Key;
use crate::order::turns::goes_before;
use cluster_types::Decision;
use faults::done;
use std::alloc::{AllocError, Global};
use std::cmp::Ordering;

/// A decision with its effective key.
#[derive(Clone, Copy)]
pub(crate) struct Ranked {
    pub(crate) decision: Decision,
    pub(crate) key: Key,
}

/// Each decision of the set with its effective key.
fn all_ranked(alloc: Global, set: &DecisionSet, keys: &[Key]) -> Result<Vec<Ranked>, AllocError>
    requires { length keys.now ≡ length set.now.list.items }
    ensures { IfOk result (λ ranked. (key : DecisionOf → decisions.Key) → keys.now ≡ map key set.now.list.items
        → ranked.items ≡ ranked_by key set.now.list.items) }
{
    let mut ranked = Vec::with_capacity(alloc, set.list.len())?;
    for position in 0..set.list.len() {
        let one = Ranked {
            decision: set.list[position],
            key: keys[position],
        };
        ranked.push(one)?;
    }
    Ok(ranked)
}

/// Whether the first goes before the other.
fn compare(one: &Ranked, other: &Ranked) -> Ordering
    ensures { is_lt result ≡ ranks_before one.now other.now }
{
    if goes_before(one, other) {
        Ordering::Less
    } else {
        Ordering::Greater
    }
}

/// Puts each behind those that go before it.
fn sort_ranked(ranked: &mut Vec<Ranked>) -> Result<(), AllocError>
    ensures { OnOk result ((key : DecisionOf → decisions.Key) (ds : List DecisionOf) → ranked.old.items ≡ ranked_by key ds → AreSorted key ds ranked.new.items) }
{
    ranked.sort_by(|one, other| compare(one, other))?;
    Ok(())
}

/// Each decision of the set with its effective key, behind those that go before it.
pub(crate) fn all_sorted(
    alloc: Global,
    set: &DecisionSet,
    keys: &[Key],
) -> Result<Vec<Ranked>, AllocError>
    requires { length keys.now ≡ length set.now.list.items }
    ensures { IfOk result (λ ranked. (key : DecisionOf → decisions.Key) → keys.now ≡ map key set.now.list.items
        → AreSorted key set.now.list.items ranked.items) }
{
    let mut ranked = all_ranked(alloc, set, keys)?;
    let sorting = sort_ranked(&mut ranked);
    done(ranked, sorting)
}

/// The slot of each decision.
pub(crate) fn slots_of(alloc: Global, ranked: &[Ranked]) -> Result<Vec<u32>, AllocError>
    requires { (x : RankedOf) → Contains ranked.now x → decisions.leaf_of x.decision < 1000 }
    ensures { IfOk result (λ slots. slots.items ≡ spec.slots_of ranked.now) }
{
    let mut slots = Vec::with_capacity(alloc, ranked.len())?;
    for one in ranked {
        slots.push(slot_of(one.decision) as u32)?;
    }
    Ok(slots)
}
