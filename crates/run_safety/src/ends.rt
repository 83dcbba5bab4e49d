//! Where a complete transition ends.

ghost use Rattle.std.specs.Prelude.{◌≡◌, Bool, false, List, [], Option};
ghost use Rattle.cluster_types.specs.declared.journal.Answer.{Answer as AnswerOf};
ghost use Rattle.cluster_types.specs.declared.journal.Event.{Event as EventOf};
ghost use Rattle.cluster_types.specs.declared.journal.Promotion.{Promotion as PromotionOf};
ghost use Rattle.cluster_types.specs.declared.placement.Placed.{Placed as PlacedOf};
ghost use Rattle.cluster_types.specs.Safety.{EndsInTargets};
ghost use Rattle.cluster_types.specs.Steps.{GoesBySteps, HasEnded, Transition, has_aborted};
ghost use Rattle.cluster_types.specs.Tables.{targets_of};
ghost use Rattle.run_safety.specs.OfPlans.{IsOfPlan};

/// A transition that nothing aborted ends in its targets: each action has begun and succeeded once; on each node that was online a resource may run just
/// where it has a target, and may be promoted just where its target says so; each cell of a resource that isn't left as it is has the state of its target;
/// and each node that was to be fenced is offline.
pub fn complete_transitions_end_in_targets()
    ensures { (promotions : List PromotionOf) (placed : PlacedOf) (t : Transition) (whole : Bool) (rest left : Option (List AnswerOf)) (later : List EventOf)
        → IsOfPlan promotions placed t → GoesBySteps t whole [] rest later left → HasEnded t later → has_aborted t later ≡ false
        → EndsInTargets t (targets_of placed.table) later }
{}
