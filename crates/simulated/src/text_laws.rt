//! Laws of what is written. Each is a function that does nothing, and whose contract is the law.

ghost use Rattle.std.specs.Prelude.{List, ℕ};
ghost use Rattle.cluster_types.specs.declared.cluster.Cluster.{Cluster as ClusterOf};
ghost use Rattle.cluster_types.specs.declared.journal.Journal.{Journal as JournalOf};
ghost use Rattle.cluster_types.specs.Runs.{journal_at};
ghost use Rattle.simulated.specs.Lives.{IsWorldWithin};
ghost use Rattle.simulated.specs.WorldTexts.{IsWorldText};

/// What really runs by the last lines may run by the journal that the run left, and what is promoted may be promoted.
pub fn what_is_real_at_the_end_may_run()
    ensures { (c : ClusterOf) (journal : JournalOf) (number : ℕ) (text : List ℕ) (is : IsWorldText c journal number text)
        → IsWorldWithin c (journal_at is.lived.at) is.world }
{}
