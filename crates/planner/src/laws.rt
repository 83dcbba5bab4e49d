//! Laws of the definitions. Each is a function that does nothing, and whose contract is the law.

ghost use Rattle.std.specs.Prelude.{◌≡◌, List};
ghost use Rattle.cluster_types.specs.declared.cluster.Cluster.{Cluster as ClusterOf};
ghost use Rattle.cluster_types.specs.declared.journal.Action.{Action as ActionOf};
ghost use Rattle.cluster_types.specs.declared.journal.Event.{Event as EventOf};
ghost use Rattle.cluster_types.specs.declared.journal.Promotion.{Promotion as PromotionOf};
ghost use Rattle.cluster_types.specs.declared.placement.Placed.{Placed as PlacedOf};
ghost use Rattle.cluster_types.specs.Plans.{IsPlan};
ghost use Rattle.cluster_types.specs.Valid.{IsValid};
ghost use Rattle.planner.specs.PlanForJournal.{HasPlan};

/// Of a valid cluster, a journal and a list of promotion scores there is one plan: some, and no more.
pub fn a_plan_exists_and_is_unique()
    ensures some { (c : ClusterOf) (events : List EventOf) (promotions : List PromotionOf) → IsValid c → HasPlan c events promotions }
    ensures placed { (c : ClusterOf) (events : List EventOf) (promotions : List PromotionOf) (one other : PlacedOf) (xs ys : List ActionOf)
        → IsPlan c events promotions one xs → IsPlan c events promotions other ys → one ≡ other }
    ensures actions { (c : ClusterOf) (events : List EventOf) (promotions : List PromotionOf) (one other : PlacedOf) (xs ys : List ActionOf)
        → IsPlan c events promotions one xs → IsPlan c events promotions other ys → xs ≡ ys }
{}
