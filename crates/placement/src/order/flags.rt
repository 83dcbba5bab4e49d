//! A flag for each decision that there may be: two for each leaf, in their order.

ghost use Rattle.std.specs.Prelude.{◌≡◌, ◌&&◌, ◌||◌, ◌<◌, ◌≤◌, ◌^◌, ℕ, Bool, false, length, IfOk, IsTrue};
ghost use Rattle.cluster_types.specs.declared.placement.Decision.{Decision as DecisionOf};
ghost use Rattle.cluster_types.specs.Decisions.{is_same_decision};
ghost use Rattle.placement.specs.Inner.Flags as spec;

use cluster_types::{Decision, cell_place};
use std::alloc::{AllocError, Global};

/// The place of the flag of a decision.
pub(crate) fn slot_of(decision: Decision) -> usize
    ensures { result ≡ spec.slot_of decision }
{
    match decision {
        Decision::Place(leaf) => cell_place(2, leaf, 0),
        Decision::Promote(leaf) => cell_place(2, leaf, 1),
    }
}

/// The flag of a decision.
pub(crate) fn flag_at(flags: &[bool], decision: Decision) -> bool
    ensures { result ≡ spec.flag_at flags.now decision }
{
    match flags.get(slot_of(decision)) {
        Some(flag) => *flag,
        None => false,
    }
}

/// No flags yet.
pub(crate) fn no_flags(alloc: Global, leaves: usize) -> Result<Vec<bool>, AllocError>
    requires { leaves ≤ 1000 }
    ensures { IfOk result (λ flags. spec.AreFlags leaves (λ d. false) flags.items) }
{
    let flags = vec![in alloc; false; 2 * leaves]?;
    Ok(flags)
}

/// Gives the decision its flag, if it is wanted.
pub(crate) fn raise_if(flags: &mut Vec<bool>, decision: Decision, wanted: bool)
    ensures { (leaves : ℕ) (passes : DecisionOf → Bool) → spec.AreFlags leaves passes flags.old.items
        → spec.AreFlags leaves (λ d. passes d || (wanted && is_same_decision decision d)) flags.new.items }
{
    if !wanted {
        return;
    }
    let slot = slot_of(decision);
    if slot < flags.len() {
        flags[slot] = true;
    }
}
