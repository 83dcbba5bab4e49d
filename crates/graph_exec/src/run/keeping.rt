//! A transition of a run that is kept, and what comes right after it.

ghost use Rattle.std.specs.Prelude.{◌≡◌, ◌≤◌, ◌+◌, ℕ, true, None, Option, List, [], ◌∷◌, ◌++◌, length, IfOk, IfErr, OnOk, OnErr};
ghost use Rattle.cluster_types.specs.declared.journal.Answer.{Answer as AnswerOf};
ghost use Rattle.cluster_types.specs.declared.journal.Event.{Event as EventOf};
ghost use Rattle.cluster_types.specs.Safety.{IsAtRest};
ghost use Rattle.cluster_types.specs.Valid.{IsValid};
ghost use Rattle.graph_exec.specs.Questions.{AskedBeside, AskedByEnd, events_left};
ghost use Rattle.graph_exec.specs.Inner.KeptTransitions.{KeepsEnd, KeepsTo, StaysOf, keeping_word, passed_end};
ghost use Rattle.graph_exec.specs.LastWords.{SourceLasts};
ghost use Rattle.graph_exec.specs.Replays.{AgreesWith, IsReplayExpected, OfMade, setting};

use crate::run::idling::ask_idle;
use crate::run::planning::plan_next;
use crate::run::stop::{Ended, ReplayStop};
use crate::{End, KnownJournal, Outcomes, Unwatched, run_transition};
use cluster_types::{NoMemory, Passed, PassedEnd, Placed};
use listed::Listed;
use std::alloc::Global;

/// How a transition ended, as it is kept.
fn passed_end(end: End) -> PassedEnd
    ensures { result ≡ passed_end end }
{
    match end {
        End::Complete => PassedEnd::Complete,
        End::Aborted(_) => PassedEnd::Aborted,
        End::Unexpected(_) | End::SourceFault => PassedEnd::Cut,
    }
}

/// Keeps a transition behind those before it. It fails where memory runs out, or where the positions don't fit 32 bits.
fn keep_behind(
    passed: &mut Listed<Passed>,
    placed: Placed,
    begins_at: usize,
    ends_at: usize,
    end: PassedEnd,
) -> Result<(), NoMemory>
    requires { begins_at ≤ ends_at }
    ensures ok { OnOk result (passed.new ≡ passed.old ++ record {
      pins = placed.pins;
      table = placed.table;
      none = placed.none;
      begins_at = begins_at;
      ends_at = ends_at;
      end = end;
    } ∷ []) }
    ensures err { OnErr result (passed.new ≡ passed.old) }
{
    if ends_at >= 4_294_967_296 {
        return Err(NoMemory);
    }
    let kept = Passed {
        pins: placed.pins,
        table: placed.table,
        none: placed.none,
        begins_at: begins_at as u32,
        ends_at: ends_at as u32,
        end,
    };
    Ok(passed.push(kept)?)
}

/// Makes the next transition of a run, and keeps it behind those before it: plans it, carries it out, and, where it is
/// complete, takes the answer that comes then. Gives the journal for which the next is due, or says how the run ends.
pub(crate) fn keep_transition<'c, S: Outcomes>(
    alloc: Global,
    journal: KnownJournal<'c>,
    outcomes: &mut S,
    passed: &mut Listed<Passed>,
) -> Result<KnownJournal<'c>, Ended>
    requires valid { IsValid journal.cluster }
    requires at_rest { IsAtRest journal.events }
    ensures goes_on { (es : List EventOf) (first : Option (List AnswerOf))
        → KeepsTo (setting journal.entry.cluster journal.entry.promotions (S.whole outcomes.old) (S.steady outcomes.old)) es first
        (S.rest outcomes.old) (S.over outcomes.old) passed.old journal.entry
        → IfOk result (KeepsTo (setting journal.entry.cluster journal.entry.promotions (S.whole outcomes.old) (S.steady outcomes.old)) es first
        (S.rest outcomes.new) (S.over outcomes.new) passed.new) }
    ensures ends { (es : List EventOf) (first : Option (List AnswerOf))
        → KeepsTo (setting journal.entry.cluster journal.entry.promotions (S.whole outcomes.old) (S.steady outcomes.old)) es first
        (S.rest outcomes.old) (S.over outcomes.old) passed.old journal.entry
        → IfErr result (KeepsEnd (setting journal.entry.cluster journal.entry.promotions (S.whole outcomes.old) (S.steady outcomes.old)) es first
        (S.rest outcomes.new) passed.new) }
    ensures stays { IfOk result (StaysOf journal.entry) }
    ensures one_more { IfOk result (λ _. length passed.new ≡ length passed.old + 1) }
    ensures few { length passed.new ≤ length passed.old + 1 }

    ensures agrees { S.agrees outcomes.old journal.entry.cluster journal.entry.events 0
        → IfOk result (λ later. S.agrees outcomes.new journal.entry.cluster later.events 0) }
    ensures agrees_at_end { S.agrees outcomes.old journal.entry.cluster journal.entry.events 0
        → IfErr result (OfMade (AgreesWith (S.agrees outcomes.new) journal.entry.cluster)) }
    ensures fitting { S.careful outcomes.old ≡ true → S.agrees outcomes.old journal.entry.cluster journal.entry.events 0
        → IfErr result IsReplayExpected }

    ensures source { SourceLasts S.Outcomes outcomes.old outcomes.new (keeping_word result) }
    ensures questions { IfOk result (λ later. AskedBeside 0 (S.asked outcomes.old) (S.asked outcomes.new) journal.entry.events later.events) }
    ensures questions_at_end { IfErr result (AskedByEnd events_left (S.asked outcomes.old) (S.asked outcomes.new) journal.entry.events) }
{
    let begins_at = journal.count();
    let Ok(planned) = plan_next(alloc, journal, None) else {
        return Err(Err(ReplayStop::NoMemory));
    };
    drop(planned.states);
    let mut executor = planned.executor;
    let end = run_transition(&mut executor, outcomes);
    let later = executor.into_known();
    let ends_at = later.count();
    let Ok(()) = keep_behind(passed, planned.placed, begins_at, ends_at, passed_end(end)) else {
        return Err(Err(ReplayStop::NoMemory));
    };
    match end {
        End::Complete => match ask_idle(alloc, later, outcomes, &Unwatched) {
            Ok(taken) => Ok(taken.journal),
            Err(ended) => Err(ended),
        },
        End::Aborted(_) => Ok(later),
        End::Unexpected(answer) => {
            Err(Err(ReplayStop::Unexpected(later.into_journal(), answer)))
        },
        End::SourceFault => Err(Err(ReplayStop::SourceFault(later.into_journal()))),
    }
}
