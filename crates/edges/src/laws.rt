//! What follows from the definitions of `specs/`, for every list of edges.

ghost use Rattle.std.specs.Prelude.{◌≡◌, ◌↔◌, true, ◌⊎◌, ℕ, List, Option, Contains};
ghost use Rattle.std.specs.List.{range_with_len};
ghost use Rattle.edges.specs.declared.edge.Edge.{Edge};
ghost use Rattle.edges.specs.Chains.{ChainThrough, leads_through};
ghost use Rattle.edges.specs.LongestChains.{AreHeights, longest};
ghost use Rattle.edges.specs.Loops.{EndsWithin, HasLoop, HasNoLoop, IsEdge, IsFirstLoop, Leads, RiseSomehow, is_edge};

/// Edges have no loop when some height rises along each of them, and only then.
pub fn edges_without_a_loop_rise()
    ensures { (positions : ℕ) (edges : List Edge) → EndsWithin positions edges → HasNoLoop edges ↔ RiseSomehow edges }
{}

/// Edges have a loop, or they have none, and never both.
pub fn loops_or_none()
    ensures one { (positions : ℕ) (edges : List Edge) → EndsWithin positions edges → HasLoop edges ⊎ HasNoLoop edges }
    ensures no_more { (edges : List Edge) → HasLoop edges → HasNoLoop edges → ⊥ }
{}

/// A way of any length leads from one position to another when the test finds one through the positions; and one through none but some positions, when it finds
/// one through these.
pub fn ways_are_computed()
    ensures through { (edges : List Edge) (others : List ℕ) (x y : ℕ)
        → ChainThrough (Contains others) (IsEdge edges) x y ↔ (leads_through (is_edge edges) others x y ≡ true) }
    ensures whole { (positions : ℕ) (edges : List Edge) → EndsWithin positions edges
        → (x y : ℕ) → Leads edges x y ↔ (leads_through (is_edge edges) (range_with_len 0 positions) x y ≡ true) }
{}

/// A list with all edges of one that has a loop has a loop, whatever their order, and however often each stands there.
pub fn loops_stay()
    ensures { (edges more : List Edge) → ((e : Edge) → Contains edges e → Contains more e)
        → HasLoop edges → HasLoop more }
{}

/// Edges have one first loop at most.
pub fn first_loop_is_unique()
    ensures { (edges : List Edge) (a b : Option ℕ) → IsFirstLoop edges a → IsFirstLoop edges b → a ≡ b }
{}

/// Without a loop the longest way to a position is one edge longer than the longest of those to where the edges into it begin, and no other lengths
/// are so.
pub fn longest_ways_are_unique()
    ensures made { (positions : ℕ) (edges : List Edge) → EndsWithin positions edges → HasNoLoop edges → AreHeights edges (longest positions edges) }
    ensures one { (positions : ℕ) (edges : List Edge) → EndsWithin positions edges → HasNoLoop edges
        → (height : ℕ → ℕ) → AreHeights edges height → (x : ℕ) → height x ≡ longest positions edges x }
{}
