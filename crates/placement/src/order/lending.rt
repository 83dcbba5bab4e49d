//! What decisions lend to those that they need.

ghost use Rattle.std.specs.Prelude.{◌≡◌, ℕ, Option, false, if◌then◌else◌, fold, length, map, slice_set, IfOk};
ghost use Rattle.cluster_types.specs.declared.placement.Decision.{Decision as DecisionOf};
ghost use Rattle.cluster_types.specs.Decisions as decisions;
ghost use Rattle.cluster_types.specs.Valid.{IsValid};
ghost use Rattle.placement.specs.Inner.EffectiveKeys.{effective_in};
ghost use Rattle.placement.specs.Inner.Lending as spec;
ghost use Rattle.placement.specs.Inner.Lending.{AreKeys};

use crate::order::decision_set::DecisionSet;
use crate::order::key_slots::own_keys;
use crate::order::keys::Key;
use crate::order::link_order::links_in_order;
use cluster_types::Edge;
use listed::value_at;
use std::alloc::{AllocError, Global};

/// Whether the lent key is the greater one.
fn is_raised(own: Option<Key>, lent: &Option<Key>) -> bool
    ensures { result ≡ spec.is_raised own lent.now }
{
    match own {
        Some(own) => match lent {
            Some(lent) => own.is_less(*lent),
            None => false,
        },
        None => false,
    }
}

/// Puts the key into the slot, if that is wanted and the slot is there.
fn put_if(slots: &mut Vec<Option<Key>>, slot: u32, key: Option<Key>, wanted: bool)
    ensures { slots.new.items ≡ (if wanted then slice_set slots.old.items slot key else slots.old.items) }
{
    let at = slot as usize;
    if wanted && at < slots.len() {
        slots[at] = key;
    }
}

/// What needs lends its key along the link to what is needed. Whether it was the greater one.
fn lend(slots: &mut Vec<Option<Key>>, link: Edge) -> bool
    ensures raised { result ≡ spec.raises slots.old.items link }
    ensures slots { slots.new.items ≡ spec.lent_along slots.old.items link }
{
    let lent = value_at(slots.as_slice(), link.after as usize);
    let own = value_at(slots.as_slice(), link.before as usize);
    let raised = is_raised(own, &lent);
    put_if(slots, link.before, lent, raised);
    raised
}

/// Lends along each link, one after the other. Whether a key was raised.
fn pass(slots: &mut Vec<Option<Key>>, links: &[Edge]) -> bool
    ensures slots { slots.new.items ≡ fold spec.lent_along slots.old.items links.now }
    ensures same { result ≡ false → slots.new.items ≡ slots.old.items }
{
    let mut raised = false;
    for link in links {
        raised |= lend(slots, *link);
    }
    raised
}

/// Of each decision of the set the greatest key among its own and those of all that need it. Passes along the links are
/// made until one raises none: where each link stands behind those that lend to where it lends from, the second raises
/// none.
pub(crate) fn lent_keys(
    alloc: Global,
    set: &DecisionSet,
    keys: &[Key],
) -> Result<Vec<Option<Key>>, AllocError>
    requires valid { IsValid set.now.cluster.now }
    requires keys { length keys.now ≡ length set.now.list.items }
    ensures { IfOk result (λ slots. (key : DecisionOf → decisions.Key) → keys.now ≡ map key set.now.list.items
        → AreKeys (length set.now.cluster.now.leaves)
        (spec.keys_among set.now.list.items
        (effective_in set.now.cluster.now set.now.list.items key)) slots.items) }
{
    let links = links_in_order(alloc, set)?;
    let mut slots = own_keys(alloc, set, keys)?;
    for _turn in 0..set.list.len() {
        let raised = pass(&mut slots, &links);
        if !raised {
            return Ok(slots);
        }
    }
    Ok(slots)
}
