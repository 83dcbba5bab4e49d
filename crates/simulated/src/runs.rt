//! Laws of the run of a simulated cluster. Each is a function that does nothing, and whose contract is the law.

ghost use Rattle.std.specs.Prelude.{◌≡◌, Bool, ℕ, List, []};
ghost use Rattle.cluster_types.specs.declared.cluster.Cluster.{Cluster as ClusterOf};
ghost use Rattle.cluster_types.specs.declared.journal.Journal.{Journal as JournalOf};
ghost use Rattle.cluster_types.specs.declared.run.Run.{Run as RunOf};
ghost use Rattle.cluster_types.specs.Journals.{in_flight_by_begin};
ghost use Rattle.cluster_types.specs.Texts.{run_lines};
ghost use Rattle.simulated.specs.RealWorlds.{RealWorld};
ghost use Rattle.simulated.specs.WorldTexts.{IsLived, IsWorldText};

/// The run of a simulated cluster is one, where nothing is in flight at first: it ends at one place, with one list of lines, in one way, and with one world.
pub fn simulated_runs_are_unique()
    ensures { (c : ClusterOf) (journal : JournalOf) (number : ℕ) (run other : RunOf) (over ended : Bool) (w last : RealWorld)
        → in_flight_by_begin journal.events ≡ [] → (one : IsLived c journal number run over w) → (two : IsLived c journal number other ended last)
        → (one.at ≡ two.at) × (run_lines c run ≡ run_lines c other) × (over ≡ ended) × (w ≡ last) }
{}

/// And so is its text.
pub fn world_texts_are_unique()
    ensures { (c : ClusterOf) (journal : JournalOf) (number : ℕ) (text other : List ℕ)
        → in_flight_by_begin journal.events ≡ [] → IsWorldText c journal number text → IsWorldText c journal number other → text ≡ other }
{}
