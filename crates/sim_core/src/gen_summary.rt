//! The word `gen`: the run of a generated case, in numbers.

ghost use Rattle.std.specs.Prelude.{◌≡◌, ◌≤◌, ◌<◌, ◌^◌, ℕ, true, Option, List, IfOk, length};
ghost use Rattle.std.specs.List.{AllByRecursion};
ghost use Rattle.cases.specs.Case.{case_text};
ghost use Rattle.cluster_io.specs.Streams.{Bears};
ghost use Rattle.cluster_types.specs.Journals.{moment_of};
ghost use Rattle.cluster_types.specs.Safety.{IsAtRest};
ghost use Rattle.cluster_types.specs.Valid.{IsValid};
ghost use Rattle.graph_exec.specs.KeptRuns.{IsPassedOfPlan};
ghost use Rattle.input_reading.specs.Results.{most_results};
ghost use Rattle.sim_core.specs.Answers.{MayAnswer, SaysOf};
ghost use Rattle.sim_core.specs.GenSummary.{IsRunOf, IsSummaryOf, IsSummaryText, answers_of};
ghost use Rattle.sim_core.specs.Outputs.{IsOutput};
ghost use Rattle.sim_core.specs.Commands.{nothing};

use crate::input_word::InputWord;
use crate::status::Status;
use crate::summary::summary_text;
use crate::text_word::{Reading, TextWord};
use cases::generate;
use cluster_io::{Sink, write_text};
use cluster_types::{Answer, Cluster, Journal, Run};
use faults::NoMemory;
use graph_exec::{ReplayStop, Script, replay};
use input_reading::{Input, ResultLine};
use run_safety::enough_transitions_are_allowed;
use std::alloc::{AllocError, Global};

/// What some result lines answer.
fn answers_of(alloc: Global, results: &[ResultLine]) -> Result<Vec<Answer>, AllocError>
    ensures { IfOk result (λ answers. answers.items ≡ answers_of results.now) }
{
    results.iter().map(|line| line.answer).collect(alloc)
}

/// The run from a journal on, of the answers of some result lines. At most one more transition is made than there are answers, which no run
/// goes past.
fn run_of(
    alloc: Global,
    cluster: &Cluster,
    journal: Journal,
    results: &[ResultLine],
) -> Result<Run, NoMemory>
    requires valid { IsValid cluster.now }
    requires at_rest { IsAtRest journal.events }
    requires moment { moment_of journal.events < 2 ^ 40 }
    requires few { length results.now ≤ most_results }
    ensures run { IfOk result (λ run. IsRunOf cluster.now journal (answers_of results.now) run) }
    ensures plans { IfOk result (λ run. AllByRecursion (IsPassedOfPlan cluster.now journal.promotions run.journal.events) run.passed) }
{
    enough_transitions_are_allowed();
    let mut answers = Script::new(answers_of(alloc, results)?);
    let most = results.len() as u32 + 1;
    match replay(alloc, cluster, journal, &mut answers, most) {
        Ok(run) => Ok(run),
        Err(ReplayStop::Unexpected(run, _)) => Ok(run),
        Err(ReplayStop::NoMemory) => Err(NoMemory),
        Err(ReplayStop::SourceFault(_)) => unreachable!(),
        Err(ReplayStop::Stopped(_)) => unreachable!(),
        Err(ReplayStop::Most(_)) => unreachable!(),
    }
}

/// The summary of the run from a journal on, as the case of this number.
fn summary_by(
    alloc: Global,
    number: u32,
    cluster: &Cluster,
    journal: Journal,
    results: &[ResultLine],
) -> Result<Vec<u8>, NoMemory>
    requires valid { IsValid cluster.now }
    requires at_rest { IsAtRest journal.events }
    requires moment { moment_of journal.events < 2 ^ 40 }
    requires few { length results.now ≤ most_results }
    ensures { IfOk result (λ text. IsSummaryOf number cluster.now journal (answers_of results.now) text.items) }
{
    let run = run_of(alloc, cluster, journal, results)?;
    summary_text(alloc, cluster, number, &run)
}

/// The word `gen`, over the case of a number.
#[derive(Drop)]
struct GenWord(u32);

impl TextWord for GenWord {
    ghost says = { λ word. IsSummaryText word.0 };

    fn text(&self, alloc: Global, input: Input) -> Result<Vec<u8>, NoMemory> {
        let Input { head, results } = input;
        let journal = head.journal;
        summary_by(alloc, self.0, &head.cluster, journal, results.as_slice())
    }
}

/// Writes what the text of the case of this number gets.
pub(crate) fn with_case<W: Sink>(alloc: Global, number: u32, out: &mut W) -> Status
    ensures says { (input : List ℕ) (left : Option (List ℕ))
        → SaysOf nothing (λ _. IsOutput (IsSummaryText number) (case_text number)) input left (W.written out.old) (W.written out.new) result }
    ensures status { MayAnswer true nothing (λ _. IsOutput (IsSummaryText number) (case_text number)) result }
    ensures bears { Bears W.counts_only_failures (result ≡ Status.WriteFault) (W.faults out.old) (W.faults out.new) }
{
    let Ok(case) = generate(alloc, number) else {
        return Status::NoMemory;
    };
    let word = Reading(GenWord(number));
    let Ok((status, text)) = word.answer(alloc, case) else {
        return Status::NoMemory;
    };
    match write_text(out, &text) {
        Ok(()) => status,
        Err(_) => Status::WriteFault,
    }
}
