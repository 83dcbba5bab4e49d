//! A key for each decision that there may be: two for each leaf, in their order, and none for what isn't decided.

ghost use Rattle.std.specs.Prelude.{◌≡◌, ◌≤◌, ℕ, Option, None, if◌then◌else◌, length, map, IfOk};
ghost use Rattle.cluster_types.specs.declared.placement.Decision.{Decision as DecisionOf};
ghost use Rattle.cluster_types.specs.Decisions as decisions;
ghost use Rattle.placement.specs.Inner.Lending as spec;

use crate::order::decision_set::DecisionSet;
use crate::order::flags::slot_of;
use crate::order::keys::Key;
use cluster_types::Decision;
use std::alloc::{AllocError, Global};

/// The key of a decision, if it is decided.
pub(crate) fn key_at(slots: &[Option<Key>], decision: Decision) -> Option<Key>
    ensures { result ≡ spec.slot_key_at slots.now decision }
{
    match slots.get(slot_of(decision)) {
        Some(key) => *key,
        None => None,
    }
}

/// Gives the decision this key.
pub(crate) fn set_key(slots: &mut Vec<Option<Key>>, decision: Decision, key: Option<Key>)
    ensures { (leaves : ℕ) (kept : DecisionOf → Option decisions.Key) → spec.AreKeys leaves kept slots.old.items
        → spec.AreKeys leaves (λ d. if decisions.is_same_decision decision d then key else kept d) slots.new.items }
{
    let slot = slot_of(decision);
    if slot < slots.len() {
        slots[slot] = key;
    }
}

/// No keys yet.
fn no_keys(alloc: Global, leaves: usize) -> Result<Vec<Option<Key>>, AllocError>
    requires { leaves ≤ 1000 }
    ensures { IfOk result (λ slots. spec.AreKeys leaves (λ d. None) slots.items) }
{
    let slots = vec![in alloc; None; 2 * leaves]?;
    Ok(slots)
}

/// The key of each decision of the set.
pub(crate) fn own_keys(
    alloc: Global,
    set: &DecisionSet,
    keys: &[Key],
) -> Result<Vec<Option<Key>>, AllocError>
    requires { length keys.now ≡ length set.now.list.items }
    ensures { IfOk result (λ slots. (key : DecisionOf → decisions.Key) → keys.now ≡ map key set.now.list.items
        → spec.AreKeys (length set.now.cluster.now.leaves) (spec.keys_among set.now.list.items key) slots.items) }
{
    let mut slots = no_keys(alloc, set.cluster.leaves.len())?;
    for position in 0..set.list.len() {
        set_key(&mut slots, set.list[position], Some(keys[position]));
    }
    Ok(slots)
}
