//! What holds of every status.

ghost use Rattle.std.specs.Prelude.{◌≡◌, List, [], Ok};
ghost use Rattle.cluster_types.specs.declared.cluster.Cluster.{Cluster};
ghost use Rattle.cluster_types.specs.declared.journal.Journal.{Journal};
ghost use Rattle.cluster_types.specs.Journals.{Orderly, in_flight_by_begin};
ghost use Rattle.crm_lex.specs.declared.line.Line.{Line};
ghost use Rattle.input_reading.specs.FirstJournal.{status_journal};

/// The first journal that the lines of a status say is in order, and has nothing in flight.
#[tactic(auto, using(crate::proofs::StatusJournals::journal_orderly, crate::proofs::StatusJournals::journal_idle))]
pub fn first_journals_are_at_rest()
    ensures orderly { (c : Cluster) (lines : List Line) (journal : Journal) → status_journal c lines ≡ Ok journal → Orderly journal.events }
    ensures idle { (c : Cluster) (lines : List Line) (journal : Journal) → status_journal c lines ≡ Ok journal → in_flight_by_begin journal.events ≡ [] }
{}
