//! Laws of how decisions came about, for every cluster, journal and list of promotion scores.

ghost use Rattle.std.specs.Prelude.{◌≡◌, ◌<◌, ℕ, true, false, Some, List, [], ◌∷◌, length, filter, Contains, ◌↔◌};
ghost use Rattle.std.specs.Option.{IsSome};
ghost use Rattle.score.specs.Total.{total_of};
ghost use Rattle.cluster_types.specs.declared.cluster.Cluster.{Cluster as ClusterOf};
ghost use Rattle.cluster_types.specs.declared.journal.Event.{Event as EventOf};
ghost use Rattle.cluster_types.specs.declared.journal.Promotion.{Promotion as PromotionOf};
ghost use Rattle.cluster_types.specs.declared.placement.Decision.{Decision as DecisionOf};
ghost use Rattle.cluster_types.specs.declared.placement.Decision.TheVariants as decision;
ghost use Rattle.cluster_types.specs.declared.placement.Placed.{Placed as PlacedOf};
ghost use Rattle.cluster_types.specs.declared.rules.Colocation.{Colocation as ColocationOf};
ghost use Rattle.cluster_types.specs.declared.rules.Order.{Order as OrderOf};
ghost use Rattle.cluster_types.specs.Choice.{is_candidate, is_chosen, total_on};
ghost use Rattle.cluster_types.specs.Held.{AreTargets, Held};
ghost use Rattle.cluster_types.specs.Plans.{IsPlaced};
ghost use Rattle.cluster_types.specs.Reasons.{IsHeldByColocation, IsHeldByOrder};
ghost use Rattle.cluster_types.specs.Tables.{Targets};
ghost use Rattle.cluster_types.specs.Texts.{scores_text};
ghost use Rattle.cluster_types.specs.Valid.{IsValid};
ghost use Rattle.decision_account.specs.Accounts.{IsWhyText, is_scores_line, why_lines, why_text};
ghost use Rattle.decision_account.specs.BetterNodes.{IsBetter};
ghost use Rattle.decision_account.specs.Grounds.{IsTrueVerdict};
ghost use Rattle.decision_account.specs.Holders.{held_decision, holder_of, misses_first};
ghost use Rattle.decision_account.specs.Parts.{base_parts, part_scores, preference_parts, without_zeros};
ghost use Rattle.decision_account.specs.Verdicts as verdict;
ghost use Rattle.decision_account.specs.Verdicts.{misses_primary, verdict_on};

/// The parts that are told of a node add up to its total: that of two totals, of the parts before colocations and of those of colocations.
pub fn parts_add_up()
    ensures { (c : ClusterOf) (events : List EventOf) (promotions : List PromotionOf) (table : Targets) (d : DecisionOf) (n : ℕ)
        → total_on c events promotions table d n
        ≡ total_of (total_of (part_scores (without_zeros (base_parts c events promotions d n))) ∷ total_of (part_scores (without_zeros (preference_parts c table d n))) ∷ []) }
{}

/// A node is chosen just when its verdict says so. What a verdict says is true: the test fails; the colocation is there and isn't met; the other node is
/// the last that is chosen, and goes before this one, which is a candidate.
pub fn verdicts_are_true()
    ensures chosen { (c : ClusterOf) (events : List EventOf) (promotions : List PromotionOf) (table : Targets) (d : DecisionOf) (n : ℕ) → n < length c.nodes
        → verdict_on c events promotions table d n ≡ verdict.chosen → is_chosen c events promotions table d n ≡ true }
    ensures told { (c : ClusterOf) (events : List EventOf) (promotions : List PromotionOf) (table : Targets) (d : DecisionOf) (n : ℕ)
        → is_chosen c events promotions table d n ≡ true → verdict_on c events promotions table d n ≡ verdict.chosen }
    ensures grounds { (c : ClusterOf) (events : List EventOf) (promotions : List PromotionOf) (table : Targets) (d : DecisionOf) (n : ℕ) → n < length c.nodes
        → IsTrueVerdict c events promotions table d n (verdict_on c events promotions table d n) }
{}

/// A node that a decision chooses is a candidate, and is better than each candidate that it doesn't choose: by total, then by load, then by place.
pub fn the_best_are_chosen()
    ensures candidate { (c : ClusterOf) (events : List EventOf) (promotions : List PromotionOf) (table : Targets) (d : DecisionOf) (n : ℕ)
        → is_chosen c events promotions table d n ≡ true → is_candidate c events promotions table d n ≡ true }
    ensures better { (c : ClusterOf) (events : List EventOf) (promotions : List PromotionOf) (table : Targets) (d : DecisionOf) (n m : ℕ)
        → is_chosen c events promotions table d n ≡ true → is_candidate c events promotions table d m ≡ true → is_chosen c events promotions table d m ≡ false
        → IsBetter c events promotions table d n m }
{}

/// The lines of `scores` are what is left without parts, verdicts and held lines.
pub fn scores_are_left()
    ensures { (c : ClusterOf) (events : List EventOf) (promotions : List PromotionOf) (placed : PlacedOf) (is : IsPlaced c events promotions placed)
        → why_text c (filter is_scores_line (why_lines c events promotions is.decisions placed)) ≡ scores_text c placed }
{}

/// What is told as held back is held back, by a rule, and all that is held back is told: of a valid cluster, for the targets in the end. A promote that is
/// held back with its place isn't told. The rules that hold a place back are those of the reason that a leaf is held.
pub fn holders_hold_back()
    ensures held { (c : ClusterOf) (events : List EventOf) (chosen targets : Targets) (r n : ℕ) (d : DecisionOf) → IsValid c → AreTargets c events chosen targets
        → r < length c.leaves → n < length c.nodes → held_decision chosen targets r n ≡ Some d → Held c events chosen d n }
    ensures by_rule { (c : ClusterOf) (events : List EventOf) (chosen targets : Targets) (r n : ℕ) (d : DecisionOf) → IsValid c → AreTargets c events chosen targets
        → r < length c.leaves → n < length c.nodes → held_decision chosen targets r n ≡ Some d → IsSome (holder_of c targets d n) }
    ensures place { (c : ClusterOf) (events : List EventOf) (chosen targets : Targets) (r n : ℕ) → IsValid c → AreTargets c events chosen targets
        → r < length c.leaves → n < length c.nodes → Held c events chosen (decision.Place r) n → held_decision chosen targets r n ≡ Some (decision.Place r) }
    ensures promote { (c : ClusterOf) (events : List EventOf) (chosen targets : Targets) (r n : ℕ) → IsValid c → AreTargets c events chosen targets
        → r < length c.leaves → n < length c.nodes → Held c events chosen (decision.Promote r) n → (Held c events chosen (decision.Place r) n → ⊥)
        → held_decision chosen targets r n ≡ Some (decision.Promote r) }
    ensures colocation { (c : ClusterOf) (events : List EventOf) (chosen targets : Targets) (r n : ℕ) (col : ColocationOf) → IsValid c
        → AreTargets c events chosen targets → n < length c.nodes → Contains c.colocations col
        → (misses_primary targets (decision.Place r) n col ≡ true) ↔ IsHeldByColocation c events chosen r n col }
    ensures order { (c : ClusterOf) (events : List EventOf) (chosen targets : Targets) (r n : ℕ) (o : OrderOf) → IsValid c
        → AreTargets c events chosen targets → n < length c.nodes → Contains c.orders o
        → (misses_first c targets (decision.Place r) n o ≡ true) ↔ IsHeldByOrder c events chosen r n o }
{}

/// Of one cluster, journal and list of promotion scores there is one text of how the decisions came about, and no more.
pub fn an_account_exists_and_is_unique()
    ensures some { (c : ClusterOf) (events : List EventOf) (promotions : List PromotionOf)
        → (placed : PlacedOf) × (text : List ℕ) × IsWhyText c events promotions placed text }
    ensures no_more { (c : ClusterOf) (events : List EventOf) (promotions : List PromotionOf) (one other : PlacedOf) (x y : List ℕ)
        → IsWhyText c events promotions one x → IsWhyText c events promotions other y → x ≡ y }
{}
