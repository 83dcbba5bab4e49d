//! Laws of simulated clusters that answer. Each is a function that does nothing, and whose contract is the law.

ghost use Rattle.std.specs.Prelude.{ℕ, true, None, List};
ghost use Rattle.cluster_types.specs.declared.cluster.Cluster.{Cluster as ClusterOf};
ghost use Rattle.cluster_types.specs.declared.journal.Event.{Event as EventOf};
ghost use Rattle.cluster_types.specs.declared.journal.Promotion.{Promotion as PromotionOf};
ghost use Rattle.cluster_types.specs.declared.run.RunLine.{RunLine as LineOf};
ghost use Rattle.cluster_types.specs.Runs.{RunStanding, Runs, amid, due, journal_at};
ghost use Rattle.cluster_types.specs.Safety.{IsAtRest};
ghost use Rattle.cluster_types.specs.Steps.{Transition};
ghost use Rattle.cluster_types.specs.Valid.{IsValid};
ghost use Rattle.simulated.specs.KeptReality.{ShowsWorld};
ghost use Rattle.simulated.specs.Lives.{NoSecondCopyReally};
ghost use Rattle.simulated.specs.RealWorlds.{RealWorld};
ghost use Rattle.simulated.specs.RunsWithin.{IsLivedWithin, RunsWithin};
ghost use Rattle.simulated.specs.Worlds.{Agrees, IsWorldRun, WorldOf};

/// What is kept of a simulated cluster that agrees with a journal runs only what may run by it.
pub fn worlds_that_agree_run_what_may_run()
    ensures { (k : WorldOf) (c : ClusterOf) (es : List EventOf) (taken : ℕ) (w : RealWorld) → Agrees k c es taken → ShowsWorld k.reality w → RunsWithin c es w }
{}

/// At every moment of the run of a simulated cluster, what really runs may run: wherever the run has stood, the simulated
/// cluster has come to the journal there, and each node stands as that journal shows, what is there may run there, and what
/// is promoted may be promoted.
pub fn each_moment_runs_what_may_run()
    ensures { (c : ClusterOf) (promotions : List PromotionOf) (number : ℕ) (es : List EventOf) (lines before after : List LineOf) (at later : RunStanding) (w : RealWorld)
        → IsWorldRun c promotions number es lines later w → Runs c promotions true (due 1 es) None before at None → Runs c promotions true at None after later None
        → IsLivedWithin c number es (journal_at at) }
{}

/// So no start makes a second copy, in any simulated cluster: a start of a leaf on a node begins only where the leaf really
/// runs on fewer other nodes than it has copies. Of a plain resource there is none. It asks for nothing but a valid
/// cluster and a journal in order with nothing in flight, as a status gives it.
pub fn no_start_really_makes_a_second_copy()
    ensures { (c : ClusterOf) (promotions : List PromotionOf) (number : ℕ) (es : List EventOf) (lines : List LineOf) (k : ℕ) (t : Transition) (since : List EventOf)
        → IsValid c → IsAtRest es → Runs c promotions true (due 1 es) None lines (amid k t since) None → NoSecondCopyReally number es t since }
{}
