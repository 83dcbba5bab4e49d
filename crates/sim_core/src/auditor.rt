//! A watcher that compares the lines of a run with written ones.

ghost use Rattle.std.specs.Prelude.{◌≡◌, ◌≤◌, ◌<◌, ◌↔◌, ◌∷◌, [], Some, true, is_some, IsTrue, slice_get, length};
ghost use Rattle.cluster_io.specs.Streams.{Rose};
ghost use Rattle.cluster_types.specs.Valid.{KeepsLimits};
ghost use Rattle.graph_exec.specs.WatcherLines.{ReasonsHaveNames, StopsAmong, plan_lines};
ghost use Rattle.sim_core.specs.LawfulRuns.{line_number_at, said};
ghost use Rattle.sim_core.specs.declared.verdict.Clause.{Clause as ClauseOf};
ghost use Rattle.trace_text.specs.RunLines.{lent_line};

use crate::same_line::{clause_of, is_same_line};
use crate::verdict::{Clause, Verdict};
use cluster_types::{Action, Answer, Cluster, Placed};
use graph_exec::{Heard, Watcher};
use input_reading::RunTextLine;
use trace_text::{RunLineRef, TargetLines};

/// Takes the next written line each time that a run tells one, and stops at the first that isn't the same. It takes no memory.
#[derive(Drop)]
pub(crate) struct Auditor<'a> {
    pub(crate) cluster: &'a Cluster,
    pub(crate) lines: &'a [RunTextLine],
    /// How many of the lines were told.
    pub(crate) place: usize,
    /// What kind of line was due where it stopped.
    pub(crate) due: Option<Clause>,
    stops: u64,
    ghost limits: { KeepsLimits cluster.now },
}

impl<'a> Auditor<'a> {
    ghost use Rattle.sim_core.specs.Inner.Auditors.{PassesLines, StopsAtLine, audited_cluster, audited_lines};

    /// No line was told yet.
    pub(crate) fn over(cluster: &'a Cluster, lines: &'a [RunTextLine]) -> Auditor<'a>
        requires { KeepsLimits cluster.now }
        ensures cluster { audited_cluster result ≡ cluster.now }
        ensures lines { result.lines.now ≡ lines.now }
        ensures place { result.place ≡ 0 }
    {
        Auditor {
            cluster,
            lines,
            place: 0,
            due: None,
            stops: 0,
        }
    }

    /// Whether this is the next of the written lines.
    #[tactic(auto, using(crate::proofs::Told::said_at))]
    fn is_next(&self, line: &RunLineRef<'_>) -> bool
        ensures { IsTrue result ↔ (slice_get (audited_lines self.now) self.now.place ≡ Some (lent_line line.now)) }
    {
        match self.lines.get(self.place) {
            Some(written) => is_same_line(&written.what, line),
            None => false,
        }
    }

    /// A line is told.
    #[tactic(auto, using(crate::proofs::Told::passes_one, crate::proofs::Told::stops_one))]
    fn hear(&mut self, line: &RunLineRef<'_>) -> Heard
        ensures cluster { audited_cluster self.new ≡ audited_cluster self.old }
        ensures passes { result ≡ Heard.Go → PassesLines self.old self.new (lent_line line.now ∷ []) }
        ensures stops { result ≡ Heard.Stop → StopsAtLine self.old self.new [] (lent_line line.now) }
        ensures count { self.old.stops ≤ self.new.stops }
        ensures cause { result ≡ Heard.Stop → Rose self.old.stops self.new.stops }
    {
        if self.is_next(line) {
            self.place += 1;
            return Heard::Go;
        }
        self.due = Some(clause_of(line));
        self.stops = self.stops.saturating_add(1);
        Heard::Stop
    }

    /// The lines of a plan are told.
    fn hear_plan(&mut self, transition: u32, placed: &Placed) -> Heard
        requires { ReasonsHaveNames placed.now }
        ensures cluster { audited_cluster self.new ≡ audited_cluster self.old }
        ensures passes { result ≡ Heard.Go → PassesLines self.old self.new (plan_lines (audited_cluster self.old) transition placed.now) }
        ensures stops { result ≡ Heard.Stop → StopsAmong (StopsAtLine self.old self.new) (plan_lines (audited_cluster self.old) transition placed.now) }
        ensures count { self.old.stops ≤ self.new.stops }
        ensures cause { result ≡ Heard.Stop → Rose self.old.stops self.new.stops }
    {
        if let Heard::Stop = self.hear(&RunLineRef::Transition(transition)) {
            return Heard::Stop;
        }
        let mut lines = TargetLines::new(self.cluster, placed);
        while let Some(line) = lines.next() {
            if let Heard::Stop = self.hear(&line) {
                return Heard::Stop;
            }
        }
        Heard::Go
    }

    /// The number of the first line that wasn't told; behind the last line, `after`.
    fn number(&self, after: u32) -> u32
        ensures { result ≡ line_number_at self.now.lines.now self.now.place after }
    {
        match self.lines.get(self.place) {
            Some(line) => line.line,
            None => after,
        }
    }

    /// What is found where the run has no more lines, but an answer would do.
    pub(crate) fn undue(&self, after: u32) -> Verdict
        ensures { result ≡ Verdict.No (line_number_at self.now.lines.now self.now.place after) Clause.Answer }
    {
        Verdict::No {
            line: self.number(after),
            clause: Clause::Answer,
        }
    }

    /// What is found where the run is over.
    pub(crate) fn over_then(&self, after: u32) -> Verdict
        ensures all { self.now.place ≡ length self.now.lines.now → result ≡ Verdict.Yes }
        ensures more { self.now.place < length self.now.lines.now
            → result ≡ Verdict.No (line_number_at self.now.lines.now self.now.place after) Clause.Answer }
    {
        if self.place == self.lines.len() {
            return Verdict::Yes;
        }
        self.undue(after)
    }

    /// What is found where it stopped.
    pub(crate) fn other_due(&self, after: u32) -> Verdict
        requires { is_some self.now.due ≡ true }
        ensures { (kind : ClauseOf) → self.now.due ≡ Some kind → result ≡ Verdict.No (line_number_at self.now.lines.now self.now.place after) kind }
    {
        match self.due {
            Some(clause) => Verdict::No {
                line: self.number(after),
                clause,
            },
            None => unreachable!(),
        }
    }
}

impl<'a> Watcher for Auditor<'a> {
    ghost use Rattle.std.specs.Prelude.{◌≡◌};
    ghost use Rattle.sim_core.specs.Inner.Auditors.{PassesLines, HasSaidStop, audited_cluster, ShowsRun};
    ghost use Rattle.sim_core.specs.Inner.AuditorLaws.{passes_itself, passes_then, stops_behind};

    ghost is_of = { λ a c. audited_cluster a ≡ c };

    ghost follows = { λ old new lines. PassesLines old new lines };

    ghost stopped = { λ old new lines at. HasSaidStop old new lines at };

    ghost quiet = { λ _. Unit {0} };

    ghost shown = { λ a heard v. ShowsRun a heard v };

    ghost stops = { λ a. a.stops };

    fn planned(&mut self, transition: u32, placed: &Placed) -> Heard {
        self.hear_plan(transition, placed)
    }

    fn begun(&mut self, number: u32, action: Action) -> Heard {
        self.hear(&RunLineRef::Begin(number, action))
    }

    fn taken(&mut self, answer: Answer) -> Heard {
        self.hear(&RunLineRef::Taken(answer))
    }

    fn closed(&mut self, transition: u32, complete: bool) -> Heard {
        if complete {
            return self.hear(&RunLineRef::Complete(transition));
        }
        self.hear(&RunLineRef::Aborted(transition))
    }

    fn waits(&mut self) -> Heard {
        Heard::Go
    }

    ghost from_itself = { λ a. passes_itself a };

    ghost from_before = { λ first middle last lines more. passes_then first middle last lines more };

    ghost stopped_later = { λ first middle last lines more at told. stops_behind first middle last lines more told at };
}
