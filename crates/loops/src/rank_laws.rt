//! What follows from the definitions of `specs/`, for every cluster whose links have no loop, as each valid one.

ghost use Rattle.std.specs.Prelude.{◌≡◌, ◌<◌, ◌↔◌, ℕ, Contains};
ghost use Rattle.cluster_types.specs.declared.cluster.Cluster.{Cluster};
ghost use Rattle.cluster_types.specs.Numbers.{StepsHaveNoLoop, IsRank, Link, LeafStep, links, rank};
ghost use Rattle.loops.specs.FirstLoops.{AllOrder};
ghost use Rattle.loops.specs.Ranks.{IsRanking};

/// What `rank` computes is the rank of the step, the length of the longest chain of links that ends at it. The rank is unique: no other number
/// is such a length.
pub fn ranks_are_computed()
    ensures { (c : Cluster) → AllOrder c → StepsHaveNoLoop c → (s : LeafStep) (count : ℕ) → IsRank c s count ↔ (count ≡ rank c s) }
{}

/// The rank of a step is one more than the greatest rank of those that a link has before it, and 0 where there are none.
pub fn ranks_are_one_above()
    ensures { (c : Cluster) → AllOrder c → StepsHaveNoLoop c → IsRanking c (rank c) }
{}

/// Ranks are unique: whatever gives each step one more than the greatest of those before it gives it its rank.
pub fn ranks_are_unique()
    ensures { (c : Cluster) → AllOrder c → StepsHaveNoLoop c → (height : LeafStep → ℕ) → IsRanking c height → (s : LeafStep) → height s ≡ rank c s }
{}

/// Ranks rise along each link.
pub fn ranks_rise()
    ensures { (c : Cluster) → AllOrder c → StepsHaveNoLoop c → (l : Link) → Contains (links c) l → rank c l.before < rank c l.after }
{}
