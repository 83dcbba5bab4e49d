//! The law of what must come first, for every cluster, journal and list of promotion scores.

ghost use Rattle.std.specs.Prelude.{◌≡◌, ◌↔◌, ◌<◌, ℕ, true, List, length, Contains};
ghost use Rattle.cluster_types.specs.declared.cluster.Cluster.{Cluster as ClusterOf};
ghost use Rattle.cluster_types.specs.declared.journal.Action.{Action as ActionOf};
ghost use Rattle.cluster_types.specs.declared.journal.Event.{Event as EventOf};
ghost use Rattle.cluster_types.specs.declared.journal.Promotion.{Promotion as PromotionOf};
ghost use Rattle.cluster_types.specs.declared.leaf.Role.TheVariants as role;
ghost use Rattle.cluster_types.specs.declared.placement.Placed.{Placed as PlacedOf};
ghost use Rattle.cluster_types.specs.Fields.{is_promotable};
ghost use Rattle.cluster_types.specs.NeededActions.{Needed};
ghost use Rattle.cluster_types.specs.Numbers.{is_earlier};
ghost use Rattle.cluster_types.specs.Plans.{IsPlan, precedes_by_number};
ghost use Rattle.cluster_types.specs.Precedence.{must_precede};
ghost use Rattle.cluster_types.specs.Steps.{numbered};
ghost use Rattle.cluster_types.specs.Tables.{Targets, holds_role};
ghost use Rattle.cluster_types.specs.Valid.{IsValid};

/// Where one needed action must precede another, it has the lower number: so no actions wait for each other, and done one by one in the order of their
/// numbers, none waits. This holds for whatever targets, as long as only promotable leaves are to be promoted, and of whatever list of the needed actions.
/// The actions of a plan are such.
pub fn what_must_precede_has_the_lower_number()
    ensures needed { (c : ClusterOf) (events : List EventOf) (targets : Targets) (actions : List ActionOf) (x y : ActionOf) → IsValid c
        → ((r n : ℕ) → r < length c.leaves → n < length c.nodes → holds_role targets r role.Promoted n ≡ true → is_promotable c r ≡ true)
        → ((a : ActionOf) → Contains actions a ↔ Needed c events targets a)
        → Contains actions x → Contains actions y → must_precede c actions (is_earlier c actions) x y ≡ true → is_earlier c actions x y ≡ true }
    ensures planned { (c : ClusterOf) (events : List EventOf) (promotions : List PromotionOf) (placed : PlacedOf) (actions : List ActionOf) (j k : ℕ)
        → IsValid c → IsPlan c events promotions placed actions
        → precedes_by_number c actions (numbered actions j) (numbered actions k) ≡ true → j < k }
{}
