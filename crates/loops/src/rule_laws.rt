//! What follows from the definitions of `specs/`, for every cluster.

ghost use Rattle.std.specs.Prelude.{◌≡◌, ◌≤◌, ◌↔◌, Contains, List, Option, ℕ, true, false, length};
ghost use Rattle.cluster_types.specs.declared.cluster.Cluster.{Cluster};
ghost use Rattle.cluster_types.specs.declared.placement.Decision.{Decision};
ghost use Rattle.cluster_types.specs.Decisions.{NeedsByChain, NeedsHaveNoLoop, needs_through};
ghost use Rattle.cluster_types.specs.Numbers.{StepsHaveNoLoop};
ghost use Rattle.cluster_types.specs.Terms.{IsTied, is_tied, lenders};
ghost use Rattle.loops.specs.FirstLoops.{AllJoin, AllOrder, IsFirstColocation, IsFirstOrder, has_need_loop, has_step_loop, is_closed_by, with_first_colocations, with_first_orders};

/// There is at most one answer to where the needs get their first loop: the place where they do, or None where they have none.
pub fn first_colocation_is_unique()
    ensures { (c : Cluster) (a b : Option ℕ) → AllJoin c → IsFirstColocation c a → IsFirstColocation c b → a ≡ b }
{}

/// There is at most one answer to where the links get their first loop: the place where they do, or None where they have none.
pub fn first_order_is_unique()
    ensures { (c : Cluster) (a b : Option ℕ) → AllOrder c → IsFirstOrder c a → IsFirstOrder c b → a ≡ b }
{}

/// No chain of needs or of links, however long, leads back to where it begins when the tests find none, and only then.
pub fn loops_are_computed()
    ensures needs { (c : Cluster) → has_need_loop c ≡ false ↔ NeedsHaveNoLoop c }
    ensures steps { (c : Cluster) → has_step_loop c ≡ false ↔ StepsHaveNoLoop c }
{}

/// A chain of needs, however long, leads from one decision to another through some decisions when `needs_through` finds one, and only then.
pub fn needs_are_computed()
    ensures { (c : Cluster) (among : List Decision) (d e : Decision) → NeedsByChain c among d e ↔ (needs_through c among d e ≡ true) }
{}

/// A chain of ties, however long, leads from one leaf to another when `is_tied` finds one, and only then. So the lenders of a leaf are those that
/// a chain of ties leads from. The leaves of the colocations are there.
pub fn ties_are_computed()
    ensures ties { (c : Cluster) → AllJoin c → (s r : ℕ) → IsTied c s r ↔ (is_tied c s r ≡ true) }
    ensures lenders { (c : Cluster) → AllJoin c → (r s : ℕ) → Contains (lenders c r) s ↔ IsTied c s r }
{}

/// The first `count` rules have a loop, as the test computes it, when the rule that closes the first loop is among them, and only then.
pub fn first_rules_have_the_loop()
    ensures needs { (c : Cluster) (place : Option ℕ) (count : ℕ) → AllJoin c → IsFirstColocation c place → count ≤ length c.colocations
        → has_need_loop (with_first_colocations c count) ≡ is_closed_by place count }
    ensures steps { (c : Cluster) (place : Option ℕ) (count : ℕ) → AllOrder c → IsFirstOrder c place → count ≤ length c.orders
        → has_step_loop (with_first_orders c count) ≡ is_closed_by place count }
{}
