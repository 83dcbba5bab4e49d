//! Laws of the definitions. Each is a function that does nothing, and whose contract is the law.

ghost use Rattle.std.specs.Prelude.{◌≡◌, ◌≢◌, ◌↔◌, ◌<◌, ◌≤◌, ◌+◌, ◌*◌, ◌^◌, Contains, ℕ, Bool, true, false, length, not, slice_get, Option, Some, ◌&&◌, ◌||◌, List, [], ◌∷◌, ◌++◌};
ghost use Rattle.std.specs.List.{list_all};
ghost use Rattle.cluster_types.specs.declared.leaf.Op.{Op};
ghost use Rattle.cluster_types.specs.declared.leaf.Op.TheVariants as op;
ghost use Rattle.cluster_types.specs.declared.placement.Decision.{Decision as DecisionOf};
ghost use Rattle.cluster_types.specs.declared.rules.Order.{Order};
ghost use Rattle.cluster_types.specs.Held.{Held};
ghost use Rattle.cluster_types.specs.LeastSets.{IsClosedUnderCycling, IsClosedUnderHolding};
ghost use Rattle.cluster_types.specs.NeededActions as cycling;
ghost use Rattle.cluster_types.specs.Numbers.{AreNumbered, leaf_links, link, order_links};
ghost use Rattle.cluster_types.specs.Precedence.{is_serialize, must_precede};
ghost use Rattle.cluster_types.specs.Precedes.{ComesFirstOnCell, Precedes, PutsFirst};
ghost use Rattle.cluster_types.specs.Safety.{IsEager, PredecessorsFirst};
ghost use Rattle.cluster_types.specs.Steps.{Applies, EndsSilently, GoesBySteps, Transition, ended, answer_events, in_flight_by_number, journal, idling, silent_code, silent_end};
ghost use Rattle.cluster_types.specs.declared.journal.Outcome.TheVariants as outcome;
ghost use Rattle.cluster_types.specs.Tables.{Targets, is_somewhere, load_of, with_cell};
ghost use Rattle.cluster_types.specs.Failures.{is_fail_stopped};
ghost use Rattle.cluster_types.specs.NodeStates.{node_state};
ghost use Rattle.cluster_types.specs.UnpackedStates.{cell_at, states_of};
ghost use Rattle.cluster_types.specs.declared.placement.Target.{Target as TargetOf};
ghost use Rattle.cluster_types.specs.Journals.{NodeSaid, Orderly, first_events, in_flight_by_begin, is_history_event, moment_of};
ghost use Rattle.cluster_types.specs.Graphs.{GraphOf, IsBefore, IsGraph, LeadUpward, is_before};
ghost use Rattle.edges.specs.Loops.{EndsWithin};
ghost use Rattle.cluster_types.specs.May.{closes, closes_promoted, is_left_promoted, may_be_running, may_be_promoted, opens, opens_promoted};

use crate::cluster::Cluster;
use crate::journal::{Action, Answer, Event, Promotion};
use edges::Edge;

/// After one more event a leaf may run where the event opens the cell, and where it might before and the event doesn't close it.
pub fn may_after_one_more()
    ensures { (c : Cluster) (leaf node : ℕ) (events : List Event) (e : Event)
        → may_be_running c leaf node (events ++ e ∷ []) ≡ opens c leaf node e || may_be_running c leaf node events && not (closes c leaf node e) }
{}

/// The same for where a leaf is left promoted, by the events.
pub fn promoted_after_one_more()
    ensures { (c : Cluster) (leaf node : ℕ) (events : List Event) (e : Event)
        → is_left_promoted c leaf node (events ++ e ∷ [])
        ≡ opens_promoted c leaf node e || is_left_promoted c leaf node events && not (closes_promoted c leaf node e) }
{}

/// Where a leaf may be promoted, it may run.
pub fn promoted_may_run()
    ensures { (c : Cluster) (leaf node : ℕ) (events : List Event) → may_be_promoted c leaf node events ≡ true → may_be_running c leaf node events ≡ true }
{}

/// The first journal has nothing in flight, whatever the status tells.
pub fn first_journal_has_nothing_in_flight()
    ensures { (c : Cluster) (history : List Event) (words : List NodeSaid) (quorum : Bool) (now : ℕ)
        → list_all (is_history_event (length c.nodes)) history ≡ true → in_flight_by_begin (first_events c history words quorum now) ≡ [] }
{}

/// The first journal is in order: whatever the status tells of a node, the node has joined before it.
pub fn first_journal_is_in_order()
    ensures { (c : Cluster) (history : List Event) (words : List NodeSaid) (quorum : Bool) (now : ℕ)
        → list_all (is_history_event (length c.nodes)) history ≡ true → Orderly (first_events c history words quorum now) }
{}

/// Of edges that make a graph is computed what they say: one action comes before another when the edges lead from it to the other through gates
/// alone, and only then.
pub fn paths_are_computed()
    ensures { (g : GraphOf) (x y : ℕ) → IsGraph g → is_before g x y ≡ true ↔ IsBefore g x y }
{}

/// Edges between the positions, upward where they lead to a gate, make a graph when some height rises along each of them, and the heights of its actions are
/// in the order of their numbers.
pub fn rising_edges_make_a_graph()
    ensures { (g : GraphOf) (height : ℕ → ℕ) → length g.actions ≤ g.edges.positions → EndsWithin g.edges.positions g.edges.list
        → LeadUpward (length g.actions) g.edges.list → ((e : Edge) → Contains g.edges.list e → height e.before < height e.after)
        → ((x y : ℕ) → x < length g.actions → y < length g.actions → height x < height y → x < y) → IsGraph g }
{}

/// The held cells are the least set that is closed under the rules for them: it is closed, and each closed set that a test tells has all its cells.
pub fn held_is_the_least_set()
    ensures closed { (c : Cluster) (events : List Event) (table : Targets) → IsClosedUnderHolding c events table (Held c events table) }
    ensures least { (c : Cluster) (events : List Event) (table : Targets) (set : DecisionOf → ℕ → Bool)
        → IsClosedUnderHolding c events table (λ d node. set d node ≡ true)
        → (d : DecisionOf) (node : ℕ) → Held c events table d node → set d node ≡ true }
{}

/// The same of the cycled cells.
pub fn cycled_is_the_least_set()
    ensures closed { (c : Cluster) (events : List Event) (targets : Targets) → IsClosedUnderCycling c events targets (cycling.Cycled c events targets) }
    ensures least { (c : Cluster) (events : List Event) (targets : Targets) (set : ℕ → ℕ → Bool)
        → IsClosedUnderCycling c events targets (λ leaf node. set leaf node ≡ true)
        → (leaf node : ℕ) → cycling.Cycled c events targets leaf node → set leaf node ≡ true }
{}

/// What must precede, case by case, is computed: one action must succeed before another begins just where `must_precede` says so.
pub fn precedence_is_computed()
    ensures { (c : Cluster) (actions : List Action) (is_earlier : Action → Action → Bool) (x y : Action)
        → must_precede c actions is_earlier x y ≡ true ↔ Precedes c actions is_earlier x y }
{}

/// The links by which steps are ranked are those that precede: a link of an order is what the order puts first (a Serialize order has none), and a link of a
/// leaf is what comes first on a cell of it, but for monitors, which have no rank.
pub fn links_are_what_comes_first()
    ensures of_order { (o : Order) (p q : Op) (r s : ℕ) → is_serialize o.kind ≡ false → Contains (order_links o) (link p r q s) ↔ PutsFirst o p r q s }
    ensures of_serialize { (o : Order) → is_serialize o.kind ≡ true → order_links o ≡ [] }
    ensures of_leaf { (leaf : ℕ) (o p : Op) → p ≢ op.Monitor → Contains (leaf_links leaf) (link o leaf p leaf) ↔ ComesFirstOnCell o p }
{}

/// The actions that are needed have one list at most in the order of their numbers, and each action stands at one position of it.
pub fn numbers_are_unique()
    ensures one_list { (c : Cluster) (events : List Event) (targets : Targets) (xs ys : List Action)
        → AreNumbered c (cycling.Needed c events targets) xs → AreNumbered c (cycling.Needed c events targets) ys → xs ≡ ys }
    ensures one_number { (c : Cluster) (events : List Event) (targets : Targets) (xs : List Action) (i j : ℕ) (a : Action)
        → AreNumbered c (cycling.Needed c events targets) xs → slice_get xs i ≡ Some a → slice_get xs j ≡ Some a → i ≡ j }
{}

/// Predecessors first: whatever answers come, no action of a transition begins before all that must precede it have succeeded.
pub fn predecessors_first()
    ensures { (t : Transition) (whole : Bool) (rest left : Option (List Answer)) (later : List Event)
        → GoesBySteps t whole [] rest later left → PredecessorsFirst t later }
{}

/// Eager and caused: whatever answers come, one is taken only where no action may begin and something is in flight; each number begins once at most, and what
/// begins is the action of its number; none begins after an abort; and where nothing aborted and nothing is left to wait for, all have succeeded. All this where
/// actions wait for those of lower numbers alone.
pub fn transitions_are_eager()
    ensures { (t : Transition) (whole : Bool) (rest left : Option (List Answer)) (later : List Event)
        → ((j k : ℕ) → t.precedes j k ≡ true → j < k) → GoesBySteps t whole [] rest later left → IsEager t later }
{}

/// What a journal tells has an entry for each node, each cell and each leaf, in their order.
pub fn each_has_its_state()
    ensures nodes { (c : Cluster) (events : List Event) (promotions : List Promotion) → length (states_of c events promotions).nodes ≡ length c.nodes }
    ensures cells { (c : Cluster) (events : List Event) (promotions : List Promotion)
        → length (states_of c events promotions).cells ≡ length c.leaves * length c.nodes }
    ensures leaves { (c : Cluster) (events : List Event) (promotions : List Promotion) → length (states_of c events promotions).fail_stop ≡ length c.leaves }
    ensures node { (c : Cluster) (events : List Event) (promotions : List Promotion) (n : ℕ) → n < length c.nodes
        → slice_get (states_of c events promotions).nodes n ≡ Some (node_state c n events) }
    ensures cell { (c : Cluster) (events : List Event) (promotions : List Promotion) (r n : ℕ) → r < length c.leaves → n < length c.nodes
        → slice_get (states_of c events promotions).cells (r * length c.nodes + n) ≡ Some (cell_at c events r n) }
    ensures leaf { (c : Cluster) (events : List Event) (promotions : List Promotion) (r : ℕ) → r < length c.leaves
        → slice_get (states_of c events promotions).fail_stop r ≡ Some (is_fail_stopped c r events) }
{}

/// The load of a node is one more once a leaf of the cluster gets its first target there, and no load changes with another role of a leaf that has a
/// target, or with a target on another node.
pub fn loads_after_a_cell()
    ensures first { (c : Cluster) (table : Targets) (r n : ℕ) (goal : TargetOf) → r < length c.leaves → is_somewhere (table r n) ≡ false
        → is_somewhere goal ≡ true → load_of c (with_cell table r n goal) n ≡ load_of c table n + 1 }
    ensures role { (c : Cluster) (table : Targets) (r n : ℕ) (goal : TargetOf) → is_somewhere (table r n) ≡ is_somewhere goal
        → (m : ℕ) → load_of c (with_cell table r n goal) m ≡ load_of c table m }
    ensures elsewhere { (c : Cluster) (table : Targets) (r n : ℕ) (goal : TargetOf) (m : ℕ) → m ≢ n
        → load_of c (with_cell table r n goal) m ≡ load_of c table m }
{}

/// The moment stays below 2^40, whatever steps a transition takes and whatever answer is taken while nothing is to be done.
pub fn moments_stay_below_their_limit()
    ensures steps { (t : Transition) (whole : Bool) (rest left : Option (List Answer)) (since later : List Event) → GoesBySteps t whole since rest later left
        → moment_of (journal t since) < 2 ^ 40 → moment_of (journal t later) < 2 ^ 40 }
    ensures idle { (c : Cluster) (es : List Event) (given : Answer) → Applies (idling c es) [] given → moment_of es < 2 ^ 40
        → moment_of (es ++ answer_events (idling c es) [] given) < 2 ^ 40 }
{}

/// When nothing more is said, it is the first in flight that ends.
pub fn silent_ends_are_of_the_first_in_flight()
    ensures { (t : Transition) (since : List Event) (k : ℕ) (a : Action) → EndsSilently t since k a
        → ended t since k (outcome.Code (silent_code a)) ≡ silent_end t.cluster (journal t since) (in_flight_by_number t since) }
{}
