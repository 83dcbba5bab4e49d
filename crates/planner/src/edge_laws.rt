//! Laws of the definitions. Each is a function that does nothing, and whose contract is the law.

ghost use Rattle.std.specs.Prelude.{◌≡◌, ◌↔◌, ◌||◌, ◌<◌, ℕ, Bool, true, List, Some, Contains, length, slice_get};
ghost use Rattle.std.specs.List.{list_any};
ghost use Rattle.cluster_types.specs.declared.cluster.Cluster.{Cluster as ClusterOf};
ghost use Rattle.cluster_types.specs.declared.graph_edges.Edges.{Edges as EdgesOf};
ghost use Rattle.cluster_types.specs.declared.journal.Action.{Action as ActionOf};
ghost use Rattle.cluster_types.specs.declared.journal.Event.{Event as EventOf};
ghost use Rattle.cluster_types.specs.declared.leaf.Role.TheVariants as role;
ghost use Rattle.cluster_types.specs.declared.rules.Order.{Order as OrderOf};
ghost use Rattle.cluster_types.specs.Fields.{is_promotable};
ghost use Rattle.cluster_types.specs.Graphs.{IsGraph, LeadsByGates};
ghost use Rattle.cluster_types.specs.NeededActions.{Needed};
ghost use Rattle.cluster_types.specs.Numbers.{AreNumbered, is_earlier};
ghost use Rattle.cluster_types.specs.Precedence.{is_serialize, is_serialized, must_precede};
ghost use Rattle.cluster_types.specs.Tables.{Targets, holds_role};
ghost use Rattle.cluster_types.specs.Valid.{IsValid};
ghost use Rattle.planner.specs.Chains.{ArePlacesInOrder, IsChained, is_earlier_at};
ghost use Rattle.planner.specs.Joins.{is_joined, joins_of};
ghost use Rattle.planner.specs.PrecedenceEdges.{AreEdges, graph_by};
ghost use Rattle.planner.specs.ActionNames.{IsActionWithin};

/// What must precede is what some join says, and what orders of the kind Serialize say in the order of numbers.
pub fn joins_say_what_must_precede()
    ensures { (c : ClusterOf) (actions : List ActionOf) (is_earlier : ActionOf → ActionOf → Bool) (x y : ActionOf)
        → must_precede c actions is_earlier x y
        ≡ list_any (is_joined c actions x y) (joins_of c) || list_any (λ (o : OrderOf). is_serialized is_earlier o x y) c.orders }
{}

/// The two chains of an order of the kind Serialize, for each node where it is local, say which of two positions comes first by it.
pub fn chains_say_what_is_serialized()
    ensures chained { (actions : List ActionOf) (is_earlier : ActionOf → ActionOf → Bool) (o : OrderOf) (places : List ℕ)
        → ((x y : ℕ) → is_earlier_at actions is_earlier x y ≡ true → is_earlier_at actions is_earlier y x ≡ true → ⊥) → ArePlacesInOrder actions is_earlier o places
        → (x y : ℕ) (a b : ActionOf) → x < length actions → y < length actions → slice_get actions x ≡ Some a → slice_get actions y ≡ Some b
        → is_serialize o.kind ≡ true → (m : ℕ) → IsChained actions o places m x y → is_serialized is_earlier o a b ≡ true }
    ensures says { (actions : List ActionOf) (is_earlier : ActionOf → ActionOf → Bool) (o : OrderOf) (places : List ℕ)
        → ((x y : ℕ) → is_earlier_at actions is_earlier x y ≡ true → is_earlier_at actions is_earlier y x ≡ true → ⊥) → ArePlacesInOrder actions is_earlier o places
        → (x y : ℕ) (a b : ActionOf) → x < length actions → y < length actions → slice_get actions x ≡ Some a → slice_get actions y ≡ Some b
        → is_serialized is_earlier o a b ≡ true → (m : ℕ) × IsChained actions o places m x y }
{}

/// What must precede has the lower number. So the edges lead from a needed action only to those of higher numbers, and where the actions
/// stand in the order of their numbers, they are a graph. This holds for whatever targets, as long as only promotable leaves are to be
/// promoted.
pub fn edges_lead_to_higher_numbers()
    ensures higher { (c : ClusterOf) (events : List EventOf) (targets : Targets) (actions : List ActionOf) (edges : EdgesOf) → IsValid c
        → ((r n : ℕ) → r < length c.leaves → n < length c.nodes → holds_role targets r role.Promoted n ≡ true → is_promotable c r ≡ true)
        → ((a : ActionOf) → Contains actions a ↔ Needed c events targets a) → AreEdges c actions (is_earlier c actions) edges
        → (x y : ℕ) (a b : ActionOf) → x < length actions → y < length actions → slice_get actions x ≡ Some a → slice_get actions y ≡ Some b
        → LeadsByGates (length actions) edges.list x y → is_earlier c actions a b ≡ true }
    ensures graph { (c : ClusterOf) (events : List EventOf) (targets : Targets) (actions : List ActionOf) (edges : EdgesOf) → IsValid c
        → ((r n : ℕ) → r < length c.leaves → n < length c.nodes → holds_role targets r role.Promoted n ≡ true → is_promotable c r ≡ true)
        → AreNumbered c (Needed c events targets) actions → AreEdges c actions (is_earlier c actions) edges
        → IsGraph (graph_by actions edges) }
{}

/// The leaves and nodes of the needed actions are those of the cluster, for whatever journal and targets.
pub fn needed_actions_are_within()
    ensures { (c : ClusterOf) (events : List EventOf) (targets : Targets) (a : ActionOf) → Needed c events targets a → IsActionWithin c a }
{}
