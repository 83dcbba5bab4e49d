//! A journal has one plan at most.

ghost use Rattle.std.specs.Prelude.{List};
ghost use Rattle.cluster_types.specs.declared.cluster.Cluster.{Cluster as ClusterOf};
ghost use Rattle.cluster_types.specs.declared.journal.Promotion.{Promotion as PromotionOf};
ghost use Rattle.run_safety.specs.OnePlan.{PlansAreOne};

/// Of two plans for one journal the pins, the targets, the reasons and the actions are equal.
pub fn plans_are_unique()
    ensures { (c : ClusterOf) (promotions : List PromotionOf) → PlansAreOne c promotions }
{}
