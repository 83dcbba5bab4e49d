//! Laws of the lines of a run that is kept.

ghost use Rattle.std.specs.Prelude.{◌≡◌, ◌+◌, ◌∷◌, ◌++◌, ℕ, List, [], Bool, Option, length};
ghost use Rattle.std.specs.List.{flat_map};
ghost use Rattle.cluster_types.specs.declared.cluster.Cluster.{Cluster as ClusterOf};
ghost use Rattle.cluster_types.specs.declared.journal.Event.{Event as EventOf};
ghost use Rattle.cluster_types.specs.declared.run.Passed.{Passed as PassedOf};
ghost use Rattle.cluster_types.specs.declared.run.RunLine.TheVariants as line;
ghost use Rattle.cluster_types.specs.Tables.{targets_of};
ghost use Rattle.cluster_types.specs.Texts.{all_passed_lines, end_lines, event_lines, target_lines};
ghost use Rattle.cluster_types.specs.declared.journal.Answer.{Answer as AnswerOf};
ghost use Rattle.cluster_types.specs.declared.journal.Promotion.{Promotion as PromotionOf};
ghost use Rattle.cluster_types.specs.declared.run.RunLine.{RunLine as LineOf};
ghost use Rattle.cluster_types.specs.Runs.{RunStanding, due, Runs, journal_at};
ghost use Rattle.run_safety.specs.KeptLines.{AreWithin, AreLinesKept};

/// One more transition adds its lines.
pub fn one_more_transition_adds_its_lines()
    ensures { (c : ClusterOf) (es ys : List EventOf) (passed : List PassedOf) (p : PassedOf)
        → AreWithin (length es) passed → p.begins_at ≡ length es → p.ends_at ≡ length es + length ys
        → all_passed_lines c (es ++ ys) 1 (passed ++ p ∷ []) ≡ all_passed_lines c es 1 passed
        ++ (line.Transition (1 + length passed) ∷ target_lines c p.pins (targets_of p.table) p.none ++ flat_map event_lines ys ++ end_lines c (1 + length passed) p.end) }
{}

/// Events behind the last transition add their lines.
pub fn events_between_transitions_add_their_lines()
    ensures { (c : ClusterOf) (es ys : List EventOf) (passed : List PassedOf) (p : PassedOf)
        → AreWithin (length es) (p ∷ passed)
        → all_passed_lines c (es ++ ys) 1 (p ∷ passed) ≡ all_passed_lines c es 1 (p ∷ passed) ++ flat_map event_lines ys }
{}

/// Wherever a run stands, its lines are those of transitions that can be kept.
pub fn runs_can_be_kept()
    ensures { (c : ClusterOf) (promotions : List PromotionOf) (whole : Bool) (es : List EventOf) (at : RunStanding) (rest left : Option (List AnswerOf)) (lines : List LineOf)
        → Runs c promotions whole (due 1 es) rest lines at left → AreLinesKept c (journal_at at) lines }
{}
