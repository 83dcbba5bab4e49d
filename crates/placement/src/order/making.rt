//! All decisions of a cluster, in the order in which they are made.

ghost use Rattle.std.specs.Prelude.{◌≡◌, ◌<◌, List, [], length, map, Contains, IfOk};
ghost use Rattle.std.specs.List.{range_with_len};
ghost use Rattle.cluster_types.specs.declared.journal.Event.{Event};
ghost use Rattle.cluster_types.specs.declared.journal.Promotion.{Promotion as PromotionOf};
ghost use Rattle.cluster_types.specs.declared.placement.Decision.{Decision as DecisionOf};
ghost use Rattle.cluster_types.specs.Decisions.{Decides, leaf_of};
ghost use Rattle.cluster_types.specs.Pins.{pin_of};
ghost use Rattle.cluster_types.specs.UnpackedStates.{states_of};
ghost use Rattle.cluster_types.specs.Valid.{IsValid};
ghost use Rattle.placement.specs.Scores.{scores_of};
ghost use Rattle.placement.specs.Inner.DecisionLists.{decisions_in, compared_key};
ghost use Rattle.placement.specs.Inner.EffectiveKeys.{effective_in};
ghost use Rattle.placement.specs.Inner.Turns.{AreInOrder};

use crate::ScoreTable;
use crate::order::decision_set::DecisionSet;
use crate::order::effective::effective_keys;
use crate::order::keys::{Key, all_keys};
use crate::order::ordering::in_order;
use crate::order::ranked_decisions::all_sorted;
use cluster_types::{Cluster, Decision, NoMemory, Pin, States};
use faults::with;
use std::alloc::{AllocError, Global};

/// The effective key of each decision of the set.
fn keys_of(
    alloc: Global,
    set: &DecisionSet,
    states: &States,
    scores: &ScoreTable,
) -> Result<Vec<Key>, AllocError>
    requires { IsValid set.now.cluster.now }
    ensures { IfOk result (λ keys. keys.items
        ≡ map (effective_in set.now.cluster.now set.now.list.items (compared_key set.now.cluster.now states.now scores.now)) set.now.list.items) }
{
    let keys = all_keys(alloc, set, states, scores)?;
    effective_keys(alloc, set, &keys)
}

/// The decisions of the set, in the order in which they are made.
fn order_of(
    alloc: Global,
    set: &DecisionSet,
    states: &States,
    scores: &ScoreTable,
) -> Result<Vec<Decision>, AllocError>
    requires { IsValid set.now.cluster.now }
    ensures { IfOk result (λ order. AreInOrder set.now.cluster.now set.now.list.items
        (effective_in set.now.cluster.now set.now.list.items (compared_key set.now.cluster.now states.now scores.now)) order.items) }
{
    let keys = keys_of(alloc, set, states, scores)?;
    let sorted = all_sorted(alloc, set, &keys);
    let (_keys, sorted) = with(keys, sorted)?;
    in_order(alloc, set, &sorted)
}

/// All decisions by what is read of the cluster: they are compared by their effective keys.
fn order_by(
    alloc: Global,
    cluster: &Cluster,
    states: &States,
    scores: &ScoreTable,
    pins: &[Option<Pin>],
) -> Result<Vec<Decision>, AllocError>
    requires { IsValid cluster.now }
    ensures { IfOk result (λ order. AreInOrder cluster.now (decisions_in cluster.now pins.now)
        (effective_in cluster.now (decisions_in cluster.now pins.now) (compared_key cluster.now states.now scores.now)) order.items) }
{
    let set = DecisionSet::new(alloc, cluster, pins)?;
    order_of(alloc, &set, states, scores)
}

/// All that is decided of the leaves that aren't left as they are, in the order in which it is decided. Next is always
/// the one of the greatest effective key of those that are ready, which need none that isn't made yet; of equal keys
/// that of the earlier leaf, and `Place` before `Promote` (Pacemaker Explained, "priority" and "Colocation"; the keys,
/// and who lends its key, are rules of this project). The scores are those that `rows` gives of these states,
/// and the pins those that `pins` gives. Each is of a leaf that the cluster has. It asks for a valid cluster. Out of
/// memory is the only other answer.
pub fn decisions_in_order(
    alloc: Global,
    cluster: &Cluster,
    states: &States,
    scores: &ScoreTable,
    pins: &[Option<Pin>],
) -> Result<Vec<Decision>, NoMemory>
    requires { IsValid cluster.now }
    ensures leaves { IfOk result (λ order. (d : DecisionOf) → Contains order.items d → leaf_of d < length cluster.now.leaves) }
    ensures order { (events : List Event) (promotions : List PromotionOf) → states.now ≡ states_of cluster.now events promotions
        → scores.now ≡ scores_of cluster.now events promotions
        → pins.now ≡ map (pin_of cluster.now events) (range_with_len 0 (length cluster.now.leaves))
        → IfOk result (λ order. Decides cluster.now events promotions [] order.items) }
{
    let order = order_by(alloc, cluster, states, scores, pins)?;
    Ok(order)
}
