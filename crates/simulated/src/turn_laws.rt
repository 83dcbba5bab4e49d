//! Laws of simulated clusters. Each is a function that does nothing, and whose contract is the law.

ghost use Rattle.std.specs.Prelude.{◌≡◌, ◌<◌, ◌≤◌, ◌+◌, ℕ, Bool, true, Some, List, length, slice_get, count_by};
ghost use Rattle.cluster_types.specs.declared.cluster.Cluster.{Cluster as ClusterOf};
ghost use Rattle.cluster_types.specs.declared.journal.Action.{Action as ActionOf};
ghost use Rattle.cluster_types.specs.declared.journal.Answer.TheVariants as answer;
ghost use Rattle.cluster_types.specs.declared.journal.Event.{Event as EventOf};
ghost use Rattle.cluster_types.specs.AnswersThatApply.{applies_after};
ghost use Rattle.cluster_types.specs.Safety.{NoSecondCopy};
ghost use Rattle.cluster_types.specs.Journals.{AreInFlightByNumber};
ghost use Rattle.cluster_types.specs.Steps.{Transition};
ghost use Rattle.simulated.specs.declared.turn.Fate.{Fate as FateOf};
ghost use Rattle.simulated.specs.declared.turn.Turn.TheVariants as turn;
ghost use Rattle.simulated.specs.Lives.{IsWorldWithin, Lives, NoSecondCopyReally};
ghost use Rattle.simulated.specs.Turns.{answer_by_fate, next_turn};
ghost use Rattle.simulated.specs.RealWorlds.{RealWorld};

/// At every moment what really runs may run, and what is really promoted may be promoted, whatever answers are given and
/// whatever begins.
pub fn what_runs_may_run()
    ensures { (c : ClusterOf) (number : ℕ) (first es : List EventOf) (w : RealWorld) → Lives c number first es w → IsWorldWithin c es w }
{}

/// Each answer applies, where no more answers from outside were taken than faults were given.
pub fn answers_of_worlds_apply()
    ensures leaves { (c : ClusterOf) (number : ℕ) (es : List EventOf) (w : RealWorld) (flight : List (ℕ × ActionOf)) (taken node : ℕ) → IsWorldWithin c es w
        → taken ≤ w.faults → next_turn c number w (length flight) ≡ turn.Leaves node → applies_after c es flight taken (answer.Lost node) ≡ true }
    ensures joins { (c : ClusterOf) (number : ℕ) (es : List EventOf) (w : RealWorld) (flight : List (ℕ × ActionOf)) (taken node : ℕ) → IsWorldWithin c es w
        → taken ≤ w.faults → next_turn c number w (length flight) ≡ turn.Joins node → applies_after c es flight taken (answer.Up node) ≡ true }
    ensures ends { (c : ClusterOf) (es : List EventOf) (w : RealWorld) (flight : List (ℕ × ActionOf)) (taken place k : ℕ) (f : FateOf) (a : ActionOf)
        → slice_get flight place ≡ Some (k, a) → applies_after c es flight taken (answer_by_fate c w f k a) ≡ true }
{}

/// In a transition without a second copy a start that begins never makes a leaf run on more nodes than it has copies,
/// whatever is believed: it really runs on fewer others. Of a plain resource it runs on none.
pub fn starts_make_no_second_copy()
    ensures { (number : ℕ) (first : List EventOf) (t : Transition) (events : List EventOf) → NoSecondCopy t events
        → NoSecondCopyReally number first t events }
{}
