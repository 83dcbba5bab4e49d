//! When an action begins, the source of outcomes is told before the watcher. They are values apart, and no clause says
//! which call came first.

ghost use Rattle.std.specs.Prelude.{true, false, Some};

use crate::small_graphs::executor_of;
use crate::starts::{TWO, start_of};
use crate::transitions::{PROBED, script_of};
use cluster_types::{Action, Answer, Placed};
use graph_exec::{Heard, InFlight, Next, Outcomes, Script, WatchedEnd, Watcher, run_watched};
use std::alloc::Global;
use std::cell::Cell;
use std::process::Abort;

/// A source that says the answers of a list, and lets others see which action it was last told of.
#[derive(Drop)]
struct Telling<'a> {
    script: Script,
    last: &'a Cell<u32>,
}

impl Outcomes for Telling<'_> {
    ghost rest = { λ s. Some s.script.left };

    ghost whole = { λ _. true };

    ghost faults = { λ _. 0 };

    ghost asked = { λ s. s.script.asked };

    ghost answered = { λ s. s.script.taken };

    ghost careful = { λ _. false };

    ghost steady = { λ _. true };

    ghost over = { λ _. true };

    ghost at_hand = { λ _. Unit {0} };

    ghost broke = { λ _. ⊥ };

    ghost agrees = { λ _ _ _ _. Unit {0} };

    ghost follows = { λ _ _. Unit {0} };

    ghost said = { λ _ _ _. Unit {0} };

    ghost anew = { λ _ _ _ _ agreed. agreed };

    ghost from_itself = { λ _. tt };

    ghost from_before = { λ _ _ _ _ later. later };

    ghost from_said = { λ _ _ _ _ _. tt };

    ghost said_later = { λ _ _ _ _ _ _. tt };

    fn begun(&mut self, number: u32, _action: Action) {
        self.last.set(number);
    }

    fn is_ready(&self) -> bool {
        true
    }

    fn next(&mut self, flight: &InFlight) -> Next {
        self.script.next(flight)
    }
}

/// A watcher that looks which action the source was last told of.
#[derive(Drop)]
struct Looking<'a> {
    last: &'a Cell<u32>,
    /// How many begins it was told.
    begins: u32,
    /// The source was told of each before it.
    agrees: bool,
}

impl Watcher for Looking<'_> {
    ghost is_of = { λ _ _. Unit {0} };

    ghost follows = { λ _ _ _. Unit {0} };

    ghost stopped = { λ _ _ _ _. Unit {0} };

    ghost quiet = { λ _. Unit {0} };

    ghost shown = { λ _ _ _. Unit {0} };

    ghost stops = { λ _. 0 };

    ghost from_itself = { λ _. tt };

    ghost from_before = { λ _ _ _ _ _ _ later. later };

    ghost stopped_later = { λ _ _ _ _ _ _ _ later. later };

    fn planned(&mut self, _transition: u32, _placed: &Placed) -> Heard {
        Heard::Go
    }

    fn begun(&mut self, number: u32, _action: Action) -> Heard {
        self.begins = self.begins.saturating_add(1);
        self.agrees = self.agrees && self.last.get() == number;
        Heard::Go
    }

    fn taken(&mut self, _answer: Answer) -> Heard {
        Heard::Go
    }

    fn closed(&mut self, _transition: u32, _complete: bool) -> Heard {
        Heard::Go
    }

    fn waits(&mut self) -> Heard {
        Heard::Go
    }
}

/// How the probes and the start end.
fn end_of<S: Outcomes, V: Watcher>(
    rt: &impl Abort,
    alloc: Global,
    source: &mut S,
    watcher: &mut V,
) -> WatchedEnd {
    let (cluster, journal) = start_of(rt, alloc, TWO);
    let mut executor = executor_of(rt, alloc, &cluster, journal, PROBED);
    let end = run_watched(&mut executor, source, watcher);
    let _journal = executor.into_journal();
    end
}

#[test]
fn the_source_is_told_of_a_begin_before_the_watcher(rt: HostRuntime) {
    let last = Cell::new(0);
    let script = script_of(&rt, rt.alloc(), &[]);
    let mut source = Telling {
        script,
        last: &last,
    };
    let mut watcher = Looking {
        last: &last,
        begins: 0,
        agrees: true,
    };
    let end = end_of(&rt, rt.alloc(), &mut source, &mut watcher);
    assert!(rt; end == WatchedEnd::Complete && watcher.begins == 3 && watcher.agrees);
}
