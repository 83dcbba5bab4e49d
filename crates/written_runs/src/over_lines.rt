//! Laws of the lines of a run, said of the lines alone. Each is a function that does nothing, and whose contract is the law.

ghost use Rattle.std.specs.Prelude.{◌≡◌, ◌++◌, Bool, List, Option};
ghost use Rattle.cluster_types.specs.declared.cluster.Cluster.{Cluster as ClusterOf};
ghost use Rattle.cluster_types.specs.declared.journal.Answer.{Answer as AnswerOf};
ghost use Rattle.cluster_types.specs.declared.journal.Event.{Event as EventOf};
ghost use Rattle.cluster_types.specs.declared.journal.Promotion.{Promotion as PromotionOf};
ghost use Rattle.cluster_types.specs.declared.run.RunLine.{RunLine as LineOf};
ghost use Rattle.cluster_types.specs.Runs.{RunStanding, due, Runs, journal_at};
ghost use Rattle.cluster_types.specs.Safety.{IsAtRest};
ghost use Rattle.cluster_types.specs.Valid.{IsValid};
ghost use Rattle.written_runs.specs.OverLines.{AreLinesSafe, LinesTellOfTheWay, LinesTell};

/// The lines that a run of a valid cluster has written, wherever it stands, are safe by themselves, by the first journal and the lines before each: before a
/// line `begin K start LEAF NODE` or `begin K promote LEAF NODE` the leaf may run on fewer other nodes than it has copies, of a plain resource on none; and
/// before `begin K promote LEAF NODE` it may be promoted on fewer other nodes than it has promoted copies. Before `begin K migrate_to LEAF SOURCE TARGET` it
/// may run on the source alone, and before `migrate_from` on source and target alone. Before each line that gives a leaf its role on a node, no leaf from which
/// it must be apart may have its own there. The first journal is in order, with nothing in flight, as a status gives it.
pub fn lines_of_runs_are_safe()
    ensures { (c : ClusterOf) (promotions : List PromotionOf) (whole : Bool) (es : List EventOf) (rest left : Option (List AnswerOf)) (lines : List LineOf) (at : RunStanding)
        → IsValid c → IsAtRest es → Runs c promotions whole (due 1 es) rest lines at left → AreLinesSafe c es lines }
{}

/// Some lines tell at most one journal. Those of a run tell the journal that it has where it stands, and each front of them tells one that it had on the way.
pub fn journals_that_lines_tell_are_unique()
    ensures one { (c : ClusterOf) (es later other : List EventOf) (lines : List LineOf) → LinesTell c es lines later → LinesTell c es lines other → later ≡ other }
    ensures of_run { (c : ClusterOf) (promotions : List PromotionOf) (whole : Bool) (es : List EventOf) (rest left : Option (List AnswerOf)) (lines : List LineOf) (at : RunStanding)
        → IsAtRest es → Runs c promotions whole (due 1 es) rest lines at left → LinesTell c es lines (journal_at at) }
    ensures of_front { (c : ClusterOf) (promotions : List PromotionOf) (whole : Bool) (es : List EventOf) (rest left : Option (List AnswerOf)) (lines before after : List LineOf) (at : RunStanding)
        → IsAtRest es → Runs c promotions whole (due 1 es) rest lines at left → lines ≡ before ++ after → LinesTellOfTheWay c promotions whole es rest at left before }
{}
