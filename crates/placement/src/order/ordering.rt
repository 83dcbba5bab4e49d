//! The order in which decisions are made.

ghost use Rattle.std.specs.Prelude.{◌≡◌, ◌<◌, ◌*◌, ℕ, false, Contains, length, replicate, slice_index_or, true, IfOk};
ghost use Rattle.cluster_types.specs.declared.placement.Decision.{Decision as DecisionOf};
ghost use Rattle.cluster_types.specs.Decisions as decisions;
ghost use Rattle.cluster_types.specs.Valid.{IsValid};
ghost use Rattle.placement.specs.Inner.Links.{links_in};
ghost use Rattle.placement.specs.Inner.Queueing.{IsQueue, has_place};
ghost use Rattle.placement.specs.declared.order.ranked_decisions.Ranked.{Ranked as RankedOf};
ghost use Rattle.placement.specs.Inner.Turns as spec;

use crate::order::decision_set::DecisionSet;
use crate::order::links::links_of;
use crate::order::queue::Queue;
use crate::order::ranked_decisions::{Ranked, slots_of};
use cluster_types::Decision;
use faults::with;
use std::alloc::{AllocError, Global};

/// The decision at the place.
fn decision_at(sorted: &[Ranked], place: u32) -> Decision
    requires { place < length sorted.now }
    ensures { (other : RankedOf) → result ≡ (slice_index_or sorted.now place other).decision }
{
    sorted[place as usize].decision
}

/// The queue of the decisions, of which none is made yet.
fn queue_of(alloc: Global, set: &DecisionSet, sorted: &[Ranked]) -> Result<Queue, AllocError>
    requires valid { IsValid set.now.cluster.now }
    requires sorted { (key : DecisionOf → decisions.Key) × (spec.AreSorted key set.now.list.items sorted.now) }
    ensures queue { IfOk result (λ queue. IsQueue (links_in set.now.cluster.now set.now.list.items) (length set.now.cluster.now.leaves * 2) queue) }
    ensures order { IfOk result (λ queue. queue.order.items ≡ spec.slots_of sorted.now) }
    ensures placed { IfOk result (λ queue. (x : ℕ) → Contains queue.order.items x → (p : ℕ) × (has_place queue.places.items x p ≡ true)) }
    ensures made { IfOk result (λ queue. queue.made.items ≡ replicate (length set.now.cluster.now.leaves * 2) false) }
{
    let links = links_of(alloc, set)?;
    let (links, slots) = with(links, slots_of(alloc, sorted))?;
    Queue::new(alloc, 2 * set.cluster.leaves.len() as u32, &links, slots)
}

/// The decisions of the set as the queue gives them: again and again the first of those that are ready.
fn taken(
    alloc: Global,
    set: &DecisionSet,
    sorted: &[Ranked],
    queue: &mut Queue,
) -> Result<Vec<Decision>, AllocError>
    requires valid { IsValid set.now.cluster.now }
    requires sorted { (key : DecisionOf → decisions.Key) × (spec.AreSorted key set.now.list.items sorted.now) }
    requires queue { IsQueue (links_in set.now.cluster.now set.now.list.items) (length set.now.cluster.now.leaves * 2) queue.old }
    requires order { queue.old.order.items ≡ spec.slots_of sorted.now }
    requires placed { (x : ℕ) → Contains queue.old.order.items x → (p : ℕ) × (has_place queue.old.places.items x p ≡ true) }
    requires made { queue.old.made.items ≡ replicate (length set.now.cluster.now.leaves * 2) false }
    ensures { IfOk result (λ order. (key : DecisionOf → decisions.Key) → spec.AreSorted key set.now.list.items sorted.now
        → spec.AreInOrder set.now.cluster.now set.now.list.items key order.items) }
{
    let mut order = Vec::with_capacity(alloc, set.list.len())?;
    loop {
        match queue.take() {
            Some(place) => order.push(decision_at(sorted, place))?,
            None => return Ok(order),
        }
    }
}

/// All decisions of the set, in the order in which they are made: again and again the first of those that are ready
/// (Pacemaker Explained, "priority" and "Colocation"; the keys are a rule of this project). They are handed in sorted,
/// so the first is that of the least place.
pub(crate) fn in_order(
    alloc: Global,
    set: &DecisionSet,
    sorted: &[Ranked],
) -> Result<Vec<Decision>, AllocError>
    requires valid { IsValid set.now.cluster.now }
    requires sorted { (key : DecisionOf → decisions.Key) × (spec.AreSorted key set.now.list.items sorted.now) }
    ensures { IfOk result (λ order. (key : DecisionOf → decisions.Key) → spec.AreSorted key set.now.list.items sorted.now
        → spec.AreInOrder set.now.cluster.now set.now.list.items key order.items) }
{
    let mut queue = queue_of(alloc, set, sorted)?;
    taken(alloc, set, sorted, &mut queue)
}
