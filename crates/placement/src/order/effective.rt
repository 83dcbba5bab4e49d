//! By what decisions are compared with those that need them.

ghost use Rattle.std.specs.Prelude.{◌≡◌, length, map, IfOk};
ghost use Rattle.cluster_types.specs.declared.placement.Decision.{Decision as DecisionOf};
ghost use Rattle.cluster_types.specs.Decisions as decisions;
ghost use Rattle.cluster_types.specs.Valid.{IsValid};
ghost use Rattle.placement.specs.Inner.EffectiveKeys.{effective_in};

use crate::order::decision_set::DecisionSet;
use crate::order::key_slots::key_at;
use crate::order::keys::Key;
use crate::order::lending::lent_keys;
use std::alloc::{AllocError, Global};

/// The effective key of each decision of the set: the greatest key among the decision and all that need it (rule of this project).
pub(crate) fn effective_keys(
    alloc: Global,
    set: &DecisionSet,
    keys: &[Key],
) -> Result<Vec<Key>, AllocError>
    requires valid { IsValid set.now.cluster.now }
    requires keys { length keys.now ≡ length set.now.list.items }
    ensures { IfOk result (λ all. (key : DecisionOf → decisions.Key) → keys.now ≡ map key set.now.list.items
        → all.items ≡ map (effective_in set.now.cluster.now set.now.list.items key) set.now.list.items) }
{
    let lent = lent_keys(alloc, set, keys)?;
    let mut all = Vec::with_capacity(alloc, set.list.len())?;
    for position in 0..set.list.len() {
        let key = key_at(&lent, set.list[position]).unwrap_or(keys[position]);
        all.push(key)?;
    }
    Ok(all)
}
