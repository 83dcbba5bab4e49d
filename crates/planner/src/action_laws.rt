//! What follows from the definitions of `specs/`, for every cluster.

ghost use Rattle.std.specs.Prelude.{◌≡◌, ◌↔◌, ℕ, List, true};
ghost use Rattle.cluster_types.specs.declared.cluster.Cluster.{Cluster};
ghost use Rattle.cluster_types.specs.declared.journal.Event.{Event};
ghost use Rattle.cluster_types.specs.declared.rules.Order.{Order};
ghost use Rattle.cluster_types.specs.NeededActions.{Cycled};
ghost use Rattle.cluster_types.specs.Numbers.{StepsHaveNoLoop};
ghost use Rattle.cluster_types.specs.Tables.{Targets};
ghost use Rattle.loops.specs.FirstLoops.{AllOrder};
ghost use Rattle.planner.specs.CycledCells.{AreCycling, FallByRank, NoneComesBack, first_marks, with_orders};

/// One pass over the orders that may have cells cycled marks just the cycled cells, where none of them has as its then its own first, or the first of one that
/// came before it.
pub fn marks_of_orders_are_the_cycled()
    ensures { (c : Cluster) (es : List Event) (targets : Targets) (os : List Order) → AreCycling c os → NoneComesBack os
        → (r n : ℕ) → with_orders c es targets (first_marks c es targets) os r n ≡ true ↔ Cycled c es targets r n }
{}

/// So it does where the orders stand by falling rank of the stops of their firsts.
pub fn falling_orders_find_the_cycled()
    ensures { (c : Cluster) → AllOrder c → StepsHaveNoLoop c → (es : List Event) (targets : Targets) (os : List Order)
        → AreCycling c os → FallByRank c os → (r n : ℕ) → with_orders c es targets (first_marks c es targets) os r n ≡ true ↔ Cycled c es targets r n }
{}
