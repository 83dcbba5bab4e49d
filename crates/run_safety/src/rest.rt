//! The journal of a transition stays in order, and nothing of it stays in flight.

ghost use Rattle.std.specs.Prelude.{◌≡◌, Bool, List, [], Option};
ghost use Rattle.cluster_types.specs.declared.journal.Answer.{Answer as AnswerOf};
ghost use Rattle.cluster_types.specs.declared.journal.Event.{Event as EventOf};
ghost use Rattle.cluster_types.specs.declared.journal.Promotion.{Promotion as PromotionOf};
ghost use Rattle.cluster_types.specs.declared.placement.Placed.{Placed as PlacedOf};
ghost use Rattle.cluster_types.specs.Journals.{AreInFlightByNumber, Orderly, in_flight_by_begin};
ghost use Rattle.cluster_types.specs.Steps.{GoesBySteps, HasEnded, Transition, in_flight_by_number, journal};
ghost use Rattle.run_safety.specs.OfPlans.{IsOfPlan};

/// Whatever is answered, and in whatever order, the journal stays in order, also after an abort: nothing is begun or ends on a node that isn't there.
pub fn transitions_stay_in_order()
    ensures { (promotions : List PromotionOf) (placed : PlacedOf) (t : Transition) (whole : Bool) (rest left : Option (List AnswerOf)) (later : List EventOf)
        → IsOfPlan promotions placed t → GoesBySteps t whole [] rest later left → Orderly (journal t later) }
{}

/// Once a transition has ended, complete or aborted, nothing of it is left under way: what comes next is planned with nothing in flight.
pub fn nothing_stays_in_flight()
    ensures { (promotions : List PromotionOf) (placed : PlacedOf) (t : Transition) (whole : Bool) (rest left : Option (List AnswerOf)) (later : List EventOf)
        → IsOfPlan promotions placed t → GoesBySteps t whole [] rest later left → HasEnded t later → in_flight_by_begin (journal t later) ≡ [] }
{}

/// What is in flight in a transition is the same by number as by begin, if nothing was when it was planned: the same actions with the same numbers.
pub fn both_say_what_is_in_flight()
    ensures { (t : Transition) (whole : Bool) (rest left : Option (List AnswerOf)) (since : List EventOf)
        → in_flight_by_begin t.planned_at ≡ [] → GoesBySteps t whole [] rest since left → AreInFlightByNumber (journal t since) (in_flight_by_number t since) }
{}
