//! The placement of a cluster.

ghost use Rattle.std.specs.Prelude.{◌≡◌, ◌*◌, List, length, map, IfOk};
ghost use Rattle.std.specs.List.{range_with_len};
ghost use Rattle.cluster_types.specs.declared.journal.Event.{Event as EventOf};
ghost use Rattle.cluster_types.specs.declared.journal.Promotion.{Promotion as PromotionOf};
ghost use Rattle.cluster_types.specs.Pins.{pin_of};
ghost use Rattle.cluster_types.specs.Plans.{IsPlaced};
ghost use Rattle.cluster_types.specs.UnpackedStates.{states_of};
ghost use Rattle.cluster_types.specs.Valid.{IsValid};
ghost use Rattle.placement.specs.Inner.ChosenTable.{AreChosen};
ghost use Rattle.placement.specs.Scores.{scores_of};

use crate::{
    Choices, ScoreTable, decide_all, decisions_in_order, pinned_table, pins, reasons, rows, targets,
};
use cluster_types::{Cluster, NoMemory, Pin, Placed, States};
use faults::with;
use std::alloc::Global;

/// What is chosen for the leaves that aren't pinned, each decision at its turn.
fn choices(
    alloc: Global,
    cluster: &Cluster,
    states: &States,
    scores: &ScoreTable,
    pins: &[Option<Pin>],
) -> Result<Choices, NoMemory>
    requires { IsValid cluster.now }
    ensures nodes { IfOk result (λ choices. choices.table.nodes ≡ length cluster.now.nodes) }
    ensures cells { IfOk result (λ choices. length choices.table.targets ≡ length cluster.now.leaves * length cluster.now.nodes) }
    ensures chosen { IfOk result (λ choices. (events : List EventOf) (promotions : List PromotionOf) → states.now ≡ states_of cluster.now events promotions
        → scores.now ≡ scores_of cluster.now events promotions
        → pins.now ≡ map (pin_of cluster.now events) (range_with_len 0 (length cluster.now.leaves)) → AreChosen cluster.now events promotions choices) }
{
    let pinned = pinned_table(alloc, cluster, states, pins)?;
    let order = decisions_in_order(alloc, cluster, states, scores, pins);
    let (pinned, order) = with(pinned, order)?;
    decide_all(alloc, cluster, states, scores, pinned, &order)
}

/// Where each leaf goes, and why one goes nowhere (Pacemaker Explained, "Allocation Details"; the order of decisions, the choice among equal
/// nodes and the reasons are rules of this project).
///
/// Leaves that are pinned keep their places. The others are decided one by one, each on the nodes with the greatest totals at its turn. Of what was
/// chosen, mandatory orders and colocations then hold back what needs something that has no place. It asks for a valid cluster. What it gives is said
/// of the states that `unpack` gives, and of their totals. Out of memory is the only other answer.
pub fn place(
    alloc: Global,
    cluster: &Cluster,
    states: &States,
    scores: &ScoreTable,
) -> Result<Placed, NoMemory>
    requires { IsValid cluster.now }
    ensures { IfOk result (λ placed. (events : List EventOf) (promotions : List PromotionOf) → states.now ≡ states_of cluster.now events promotions
        → scores.now ≡ scores_of cluster.now events promotions → IsPlaced cluster.now events promotions placed) }
{
    let pins = pins(alloc, cluster, states)?;
    let choices = choices(alloc, cluster, states, scores, pins.as_slice());
    let (pins, choices) = with(pins, choices)?;
    let table = targets(alloc, cluster, pins.as_slice(), &choices.table);
    let ((pins, choices), table) = with((pins, choices), table)?;
    let none = reasons(
        alloc,
        cluster,
        states,
        pins.as_slice(),
        &choices.table,
        &table,
    );
    let ((pins, choices, table), none) = with((pins, choices, table), none)?;
    Ok(Placed {
        pins,
        decided: choices.decided,
        table,
        none,
    })
}

/// The placement of the cluster in these states: the one that `place` makes by their totals. It asks for a valid cluster. What it gives is said of the
/// states that `unpack` gives. Out of memory is the only other answer.
pub fn placement_of(alloc: Global, cluster: &Cluster, states: &States) -> Result<Placed, NoMemory>
    requires { IsValid cluster.now }
    ensures { IfOk result (λ placed. (events : List EventOf) (promotions : List PromotionOf) → states.now ≡ states_of cluster.now events promotions
        → IsPlaced cluster.now events promotions placed) }
{
    let scores = rows(alloc, cluster, states)?;
    place(alloc, cluster, states, &scores)
}
