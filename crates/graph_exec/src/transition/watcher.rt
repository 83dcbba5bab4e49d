//! Who is told what happens.

ghost use Rattle.std.specs.Prelude.{◌≡◌, ◌≤◌, ◌++◌, ◌∷◌, [], ℕ, Option, Some, None, true, List};
ghost use Rattle.std.specs.List.{flat_map};
ghost use Rattle.cluster_io.specs.Streams.{Rose};
ghost use Rattle.cluster_types.specs.declared.cluster.Cluster.{Cluster as ClusterOf};
ghost use Rattle.cluster_types.specs.declared.journal.Action.{Action as ActionOf};
ghost use Rattle.cluster_types.specs.declared.journal.Event.{Event as EventOf};
ghost use Rattle.cluster_types.specs.declared.journal.Event.TheVariants.{Begin};
ghost use Rattle.cluster_types.specs.declared.journal.Promotion.{Promotion as PromotionOf};
ghost use Rattle.cluster_types.specs.declared.run.RunLine.{RunLine as LineOf};
ghost use Rattle.cluster_types.specs.declared.run.RunLine.TheVariants as line;
ghost use Rattle.cluster_types.specs.AnswersThatApply.{added_by, applies_after};
ghost use Rattle.cluster_types.specs.Journals.{AreInFlightByNumber};
ghost use Rattle.cluster_types.specs.Plans.{IsPlan};
ghost use Rattle.cluster_types.specs.Texts.{event_lines};
ghost use Rattle.graph_exec.specs.declared.transition.watcher.Heard.{Heard as HeardOf};
ghost use Rattle.graph_exec.specs.WatcherLines.{ReasonsHaveNames, RunView, StopsAmong, closing_line, plan_lines, view_action, view_amid, view_between, view_later};

use cluster_types::{Action, Answer, Placed};

/// What a watcher says to what it is told.
#[derive(Clone, Copy, Debug, PartialEq, Eq)]
pub enum Heard {
    Go,
    /// It wants no more: the run stops here.
    Stop,
}

/// Who is told what happens in a run, line by line, right after it has happened. It takes no memory.
pub trait Watcher {
    /// It is told the lines of runs of this cluster.
    ghost is_of: { Self → ClusterOf → Type 0 };

    /// It has come from another, the same watcher at an earlier moment, by these lines, and went on each time.
    ghost follows: { Self → Self → List LineOf → Type 0 };

    /// It has come so from another by these lines, and then has stopped: at this one, or, where there is none, as the source was about to be asked.
    ghost stopped: { Self → Self → List LineOf → Option LineOf → Type 0 };

    /// It holds nothing back of what it was told.
    ghost quiet: { Self → Type 0 };

    /// It has been shown a run up to here, each plan before the events of its transition, and said this at the last call.
    ghost shown: { Self → HeardOf → RunView → Type 0 };

    /// How often it has stopped. The count stands still at the end of 64 bits.
    ghost stops: { Self → ℕ };

    /// The transition of this number in the run is planned. The plan is shown as it is, with all that was decided.
    fn planned(&mut self, transition: u32, placed: &Placed) -> Heard
        requires { ReasonsHaveNames placed.now }
        ensures same_lines { (c : ClusterOf) → is_of self.old c → is_of self.new c }
        ensures follows { result ≡ Heard.Go → (c : ClusterOf) → is_of self.old c → follows self.old self.new (plan_lines c transition placed.now) }
        ensures stopped { result ≡ Heard.Stop → (c : ClusterOf) → is_of self.old c → StopsAmong (λ lines at. stopped self.old self.new lines (Some at)) (plan_lines c transition placed.now) }
        ensures shown { (c : ClusterOf) (promotions : List PromotionOf) (es : List EventOf) (actions : List ActionOf) → IsPlan c es promotions placed.now actions
            → shown self.old Heard.Go (view_between c promotions es) → shown self.new result (view_amid c promotions actions es) }
        ensures count { stops self.old ≤ stops self.new }
        ensures cause { result ≡ Heard.Stop → Rose (stops self.old) (stops self.new) };

    /// The action of this number in the transition has begun: its event is in the journal.
    fn begun(&mut self, number: u32, action: Action) -> Heard
        ensures same_lines { (c : ClusterOf) → is_of self.old c → is_of self.new c }
        ensures follows { result ≡ Heard.Go → follows self.old self.new (line.Begin number action ∷ []) }
        ensures stopped { result ≡ Heard.Stop → stopped self.old self.new [] (Some (line.Begin number action)) }
        ensures shown { (v : RunView) → view_action v number ≡ Some action → shown self.old Heard.Go v → shown self.new result (view_later v (Begin number action ∷ [])) }
        ensures count { stops self.old ≤ stops self.new }
        ensures cause { result ≡ Heard.Stop → Rose (stops self.old) (stops self.new) };

    /// The answer is taken. A silent end is told as the end that it stands for.
    fn taken(&mut self, answer: Answer) -> Heard
        ensures same_lines { (c : ClusterOf) → is_of self.old c → is_of self.new c }
        ensures follows { result ≡ Heard.Go → follows self.old self.new (line.Taken answer ∷ []) }
        ensures stopped { result ≡ Heard.Stop → stopped self.old self.new [] (Some (line.Taken answer)) }
        ensures shown { (v : RunView) (flight : List (ℕ × ActionOf)) (taken : ℕ) → AreInFlightByNumber v.events flight
            → applies_after v.cluster v.events flight taken answer ≡ true
            → flat_map event_lines (added_by v.cluster v.events flight answer) ≡ line.Taken answer ∷ []
            → shown self.old Heard.Go v → shown self.new result (view_later v (added_by v.cluster v.events flight answer)) }
        ensures count { stops self.old ≤ stops self.new }
        ensures cause { result ≡ Heard.Stop → Rose (stops self.old) (stops self.new) };

    /// The transition of this number in the run has ended, complete or aborted.
    fn closed(&mut self, transition: u32, complete: bool) -> Heard
        ensures same_lines { (c : ClusterOf) → is_of self.old c → is_of self.new c }
        ensures follows { result ≡ Heard.Go → follows self.old self.new (closing_line transition complete ∷ []) }
        ensures stopped { result ≡ Heard.Stop → stopped self.old self.new [] (Some (closing_line transition complete)) }
        ensures shown { (c : ClusterOf) (promotions : List PromotionOf) (actions : List ActionOf) (es : List EventOf)
            → shown self.old Heard.Go (view_amid c promotions actions es) → shown self.new result (view_between c promotions es) }
        ensures count { stops self.old ≤ stops self.new }
        ensures cause { result ≡ Heard.Stop → Rose (stops self.old) (stops self.new) };

    /// The source is asked next, and may keep the run waiting: what is held back goes out now.
    fn waits(&mut self) -> Heard
        ensures same_lines { (c : ClusterOf) → is_of self.old c → is_of self.new c }
        ensures follows { result ≡ Heard.Go → follows self.old self.new [] }
        ensures stopped { result ≡ Heard.Stop → stopped self.old self.new [] None }
        ensures quiet { result ≡ Heard.Go → quiet self.new }
        ensures shown { (v : RunView) → shown self.old Heard.Go v → shown self.new result v }
        ensures count { stops self.old ≤ stops self.new }
        ensures cause { result ≡ Heard.Stop → Rose (stops self.old) (stops self.new) };

    /// It has come from itself by no line.
    ghost from_itself: { (watcher : Self) → follows watcher watcher [] };

    /// It has come from what it came from on the way.
    ghost from_before: { (first middle last : Self) (lines more : List LineOf) → follows first middle lines → follows middle last more → follows first last (lines ++ more) };

    /// Where it stops, it does so behind what came before.
    ghost stopped_later: { (first middle last : Self) (lines more : List LineOf) (at : Option LineOf) → follows first middle lines → stopped middle last more at
        → stopped first last (lines ++ more) at };
}

/// A watcher that always goes on, and tells nothing.
#[derive(Clone, Copy, Debug)]
pub struct Unwatched;

impl Watcher for Unwatched {
    ghost is_of = { λ _ _. Unit {0} };

    ghost follows = { λ _ _ _. Unit {0} };

    ghost stopped = { λ _ _ _ _. Unit {0} };

    ghost quiet = { λ _. Unit {0} };

    ghost shown = { λ _ _ _. Unit {0} };

    ghost stops = { λ _. 0 };

    ghost from_itself = { λ _. tt };

    ghost from_before = { λ _ _ _ _ _ _ later. later };

    ghost stopped_later = { λ _ _ _ _ _ _ _ later. later };

    fn planned(&mut self, _transition: u32, _placed: &Placed) -> Heard {
        Heard::Go
    }

    fn begun(&mut self, _number: u32, _action: Action) -> Heard {
        Heard::Go
    }

    fn taken(&mut self, _answer: Answer) -> Heard {
        Heard::Go
    }

    fn closed(&mut self, _transition: u32, _complete: bool) -> Heard {
        Heard::Go
    }

    fn waits(&mut self) -> Heard {
        Heard::Go
    }
}
