//! Laws of the actions of plans. Each is a function that does nothing, and whose contract is the law.

ghost use Rattle.std.specs.Prelude.{◌≡◌, ◌↔◌, ◌≤◌, List, Contains};
ghost use Rattle.cluster_types.specs.declared.cluster.Cluster.{Cluster as ClusterOf};
ghost use Rattle.cluster_types.specs.declared.journal.Action.{Action as ActionOf};
ghost use Rattle.cluster_types.specs.declared.journal.Event.{Event as EventOf};
ghost use Rattle.cluster_types.specs.declared.journal.Promotion.{Promotion as PromotionOf};
ghost use Rattle.cluster_types.specs.declared.placement.Placed.{Placed as PlacedOf};
ghost use Rattle.cluster_types.specs.NeededActions.{Needed};
ghost use Rattle.cluster_types.specs.Numbers.{action_place};
ghost use Rattle.cluster_types.specs.Plans.{IsPlaced, most_edges};
ghost use Rattle.cluster_types.specs.Tables.{targets_of};
ghost use Rattle.cluster_types.specs.Valid.{IsValid};
ghost use Rattle.planner.specs.PlannedActions.{AreOfSomePlan};

/// No two needed actions have one place in the order of numbers. So of each plan there is one order of numbers.
pub fn needed_actions_of_places_are_unique()
    ensures { (c : ClusterOf) (events : List EventOf) (promotions : List PromotionOf) (placed : PlacedOf) (actions : List ActionOf) (x y : ActionOf)
        → IsValid c → IsPlaced c events promotions placed
        → ((a : ActionOf) → Contains actions a ↔ Needed c events (targets_of placed.table) a)
        → Contains actions x → Contains actions y → action_place c actions x ≡ action_place c actions y → x ≡ y }
{}

/// The graph of a plan of a valid cluster, however large, has at most a hundred million edges.
pub fn plans_have_few_edges()
    ensures { (c : ClusterOf) (actions : List ActionOf) → IsValid c → AreOfSomePlan c actions → most_edges c actions ≤ 100000000 }
{}
