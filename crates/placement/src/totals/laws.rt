//! Laws of the definitions. Each is a function that does nothing, and whose contract is the law.

ghost use Rattle.std.specs.Prelude.{◌≡◌, ◌<◌, ◌+◌, ◌*◌, ℕ, List, length};
ghost use Rattle.cluster_types.specs.declared.cluster.Cluster.{Cluster};
ghost use Rattle.cluster_types.specs.declared.journal.Event.{Event};
ghost use Rattle.cluster_types.specs.declared.journal.Promotion.{Promotion};
ghost use Rattle.cluster_types.specs.declared.placement.Decision.{Decision};
ghost use Rattle.cluster_types.specs.Decisions.{leaf_of};
ghost use Rattle.cluster_types.specs.Terms.{base};
ghost use Rattle.placement.specs.Scores.{score_in, scores_of};

/// What the table of scores says of a decision on a node is the base of that decision there.
pub fn scores_are_bases()
    ensures { (c : Cluster) (events : List Event) (promotions : List Promotion) (decision : Decision) (node : ℕ)
        → leaf_of decision < length c.leaves → node < length c.nodes → score_in (scores_of c events promotions) decision node ≡ base c events promotions decision node }
{}
