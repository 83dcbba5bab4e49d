//! The text of a run that is kept.

ghost use Rattle.std.specs.Prelude.{◌≡◌, ◌<◌, ◌+◌, ◌^◌, ◌++◌, ◌∷◌, [], ℕ, drop, length, take, IfOk, MatchOption, OnOk};
ghost use Rattle.std.specs.List.{flat_map};
ghost use Rattle.cluster_types.specs.declared.cluster.Cluster.{Cluster as ClusterOf};
ghost use Rattle.cluster_types.specs.declared.run.RunLine.TheVariants as line;
ghost use Rattle.cluster_types.specs.Texts as texts;
ghost use Rattle.cluster_types.specs.Valid.{KeepsLimits};
ghost use Rattle.trace_text.specs.RunLines.{lent_line};

use crate::run_line_ref::RunLineRef;
use crate::run_lines::put_line;
use crate::target_walk::push_targets;
use cluster_types::{Action, Answer, Cluster, Event, Op, Outcome, Passed, PassedEnd, Run};
use faults::NoMemory;
use std::alloc::Global;

/// What an end with an exit code answers: that the action of this number has ended, or what a recurring monitor has
/// found.
fn answer_of_end(number: u32, action: Action, code: u8) -> Answer
    ensures { (moment : ℕ)
        → texts.event_lines (Event.Ended number action (Outcome.Code code) moment) ≡ line.Taken result ∷ [] }
{
    if number > 0 {
        return Answer::End { number, code };
    }
    match action {
        Action::Operation {
            op: Op::Monitor,
            leaf,
            node,
            interval_ms,
            ..
        } => Answer::Report {
            node,
            leaf,
            interval_ms,
            code,
        },
        _ => Answer::End { number, code },
    }
}

/// The line of an event, if it has one. What is gone with its node has none.
fn line_of_event(event: Event) -> Option<RunLineRef<'static>>
    ensures lines { MatchOption result (texts.event_lines event ≡ [])
        (λ lent. texts.event_lines event ≡ lent_line lent ∷ []) }
{
    let answer = match event {
        Event::Begin { number, action } => return Some(RunLineRef::Begin(number, action)),
        Event::Ended {
            number,
            action,
            outcome: Outcome::Code(code),
            ..
        } => answer_of_end(number, action, code),
        Event::Ended {
            number,
            outcome: Outcome::TimedOut,
            ..
        } => Answer::Timeout { number },
        Event::Lost { node } => Answer::Lost { node },
        Event::Up { node } => Answer::Up { node },
        Event::Quorum { yes } => Answer::Quorum { yes },
        Event::Wait { seconds } => Answer::Wait { seconds },
        Event::Ended {
            outcome: Outcome::Gone,
            ..
        }
        | Event::Down { .. }
        | Event::Cleanup { .. } => return None,
    };
    Some(RunLineRef::Taken(answer))
}

/// The lines of some events.
fn push_events(text: &mut Vec<u8>, cluster: &Cluster, events: &[Event]) -> Result<(), NoMemory>
    ensures { OnOk result (text.new.items
        ≡ text.old.items ++ flat_map (texts.run_line cluster.now) (flat_map texts.event_lines events.now)) }
{
    for event in events {
        let Some(line) = line_of_event(*event) else {
            continue;
        };
        put_line(text, cluster, &line)?;
    }
    Ok(())
}

/// The events at the positions from one up to another, without it.
fn between(events: &[Event], from: usize, to: usize) -> &[Event]
    ensures { result.now ≡ texts.between from to events.now }
{
    let start = from.min(events.len());
    let behind = &events[start..];
    let count = to.saturating_sub(from).min(behind.len());
    &behind[..count]
}

/// How a transition ended, if it did.
fn push_end(
    text: &mut Vec<u8>,
    cluster: &Cluster,
    number: u32,
    end: PassedEnd,
) -> Result<(), NoMemory>
    ensures { OnOk result (text.new.items
        ≡ text.old.items ++ flat_map (texts.run_line cluster.now) (texts.end_lines cluster.now number end)) }
{
    match end {
        PassedEnd::Complete => put_line(text, cluster, &RunLineRef::Complete(number)),
        PassedEnd::Aborted => put_line(text, cluster, &RunLineRef::Aborted(number)),
        PassedEnd::Cut => Ok(()),
    }
}

/// Where the first of some transitions begins in the journal, or the end of the journal.
fn begin_of(events: &[Event], passed: &[Passed]) -> usize
    ensures { (c : ClusterOf) → result ≡ texts.begin_of c events.now passed.now }
{
    match passed {
        [next, ..] => next.begins_at as usize,
        [] => events.len(),
    }
}

/// The lines of a transition (its targets, what happened, and how it ended), and of what came between it and the next of
/// those after it.
fn push_first(
    text: &mut Vec<u8>,
    cluster: &Cluster,
    events: &[Event],
    number: u32,
    passed: &Passed,
    after: &[Passed],
) -> Result<(), NoMemory>
    requires limits { KeepsLimits cluster.now }
    ensures { OnOk result (text.new.items ≡ text.old.items
        ++ flat_map (texts.run_line cluster.now) (texts.passed_lines cluster.now events.now number passed.now
        ++ flat_map texts.event_lines
        (texts.between passed.now.ends_at (texts.begin_of cluster.now events.now after.now) events.now))) }
{
    let begin = passed.begins_at as usize;
    let end = passed.ends_at as usize;
    put_line(text, cluster, &RunLineRef::Transition(number))?;
    push_targets(
        text,
        cluster,
        passed.pins.as_slice(),
        &passed.table,
        passed.none.as_slice(),
    )?;
    push_events(text, cluster, between(events, begin, end))?;
    push_end(text, cluster, number, passed.end)?;
    push_events(text, cluster, between(events, end, begin_of(events, after)))?;
    Ok(())
}

/// The text of a run: of each transition its lines, and behind them the answers that came between it and the next (rule
/// of this project). Without a line `unexpected`, which is no part of a run.
///
/// It asks for a cluster within the limits, and for fewer than 4,294,967,295 transitions. `NoMemory` comes when memory runs
/// out.
pub fn run_text(alloc: Global, cluster: &Cluster, run: &Run) -> Result<Vec<u8>, NoMemory>
    requires limits { KeepsLimits cluster.now }
    requires numbers { length run.now.passed + 1 < 2 ^ 32 }
    ensures { IfOk result (λ text. text.items ≡ texts.run_text cluster.now run.now) }
{
    let mut text = Vec::new(alloc);
    let events = run.journal.events.as_slice();
    let mut left = run.passed.as_slice();
    let mut number = 1;
    while let Some((passed, after)) = left.split_first() {
        push_first(&mut text, cluster, events, number, passed, after)?;
        number += 1;
        left = after;
    }
    Ok(text)
}
