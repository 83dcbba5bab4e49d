//! Which transitions are those of plans.

ghost use Rattle.std.specs.Prelude.{List};
ghost use Rattle.cluster_types.specs.declared.cluster.Cluster.{Cluster as ClusterOf};
ghost use Rattle.cluster_types.specs.declared.journal.Action.{Action as ActionOf};
ghost use Rattle.cluster_types.specs.declared.journal.Event.{Event as EventOf};
ghost use Rattle.cluster_types.specs.declared.journal.Promotion.{Promotion as PromotionOf};
ghost use Rattle.cluster_types.specs.declared.placement.Placed.{Placed as PlacedOf};
ghost use Rattle.cluster_types.specs.Graphs.{GraphOf};
ghost use Rattle.cluster_types.specs.Plans.{CarriesOut, IsPlan, transition_of, transition_on};
ghost use Rattle.cluster_types.specs.Safety.{IsAtRest};
ghost use Rattle.cluster_types.specs.Valid.{IsValid};
ghost use Rattle.run_safety.specs.OfPlans.{IsOfPlan};

/// The transition that the actions of a plan make is that of the plan, and so is the one that an executor runs by a graph which carries the plan out. So each
/// law of safety holds of both.
pub fn plans_are_carried_out()
    ensures actions { (c : ClusterOf) (events : List EventOf) (promotions : List PromotionOf) (placed : PlacedOf) (actions : List ActionOf)
        → IsValid c → IsAtRest events → IsPlan c events promotions placed actions → IsOfPlan promotions placed (transition_of c events actions) }
    ensures graph { (c : ClusterOf) (events : List EventOf) (promotions : List PromotionOf) (placed : PlacedOf) (g : GraphOf)
        → IsValid c → IsAtRest events → CarriesOut c events promotions placed g → IsOfPlan promotions placed (transition_on c g events) }
{}
