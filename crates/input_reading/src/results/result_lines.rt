//! The result lines of a text.

ghost use Rattle.std.specs.Prelude.{◌≡◌, ◌≢◌, ◌<◌, ◌^◌, ◌+◌, List, ℕ, length, IfErr, IfOk};
ghost use Rattle.crm_lex.specs.Reading.{kept};
ghost use Rattle.cluster_types.specs.AnswersThatApply.{seconds_in};
ghost use Rattle.cluster_types.specs.Journals as journals;
ghost use Rattle.faults.specs.declared.fault.Fault.TheVariants as found;
ghost use Rattle.faults.specs.Reading.{Gives};
ghost use Rattle.input_reading.specs.Results.{most_results, result_of, results_of};
ghost use Rattle.input_reading.specs.Grammar.LinesSaid.{AreResultsRefused, AsLinesSay, IsResultAnswer, IsNoAnswerOn, ResultsAreSaid};

use crate::results::answers::answer_of;
use crate::{ResultCause, ResultFault, Words};
use cluster_types::{Answer, Journal, moment_of};
use crm_lex::{Line, WordBuf};
use names::Names;
use std::alloc::Global;

/// How many result lines there may be.
const MOST_RESULTS: usize = 10_000;

/// An answer, and the line where it stands.
#[derive(Clone, Copy, Debug, PartialEq, Eq)]
pub struct ResultLine {
    /// The physical line, counted from 1, where the logical line begins.
    pub line: u32,
    pub answer: Answer,
}

/// What a line answers, at a moment and after so many result lines.
fn result_of<W: Words>(
    names: &Names<'_>,
    moment: u64,
    before: usize,
    line: u32,
    words: &W,
) -> Result<Answer, ResultFault>
    requires moment { moment < 2 ^ 40 }
    ensures value { result ≡ result_of names.now moment before line (W.words words.now) }
    ensures few { IfOk result (λ _. before < most_results) }
    ensures within { IfOk result (λ answer. moment + seconds_in answer < 2 ^ 40) }
    ensures no_memory { IfErr result (λ fault. fault ≢ found.NoMemory) }
{
    if before >= MOST_RESULTS {
        return Err(ResultFault::At {
            line,
            cause: ResultCause::TooManyResults,
        });
    }
    match answer_of(names, moment, words) {
        Ok(answer) => Ok(answer),
        Err(cause) => Err(ResultFault::At {
            line,
            cause: ResultCause::Form(cause),
        }),
    }
}

/// Reads one result line, which stands after `before` result lines and is taken at `moment`, in seconds. It takes no memory and never answers
/// `NoMemory`.
///
/// The line is `end NUMBER CODE`, `timeout NUMBER`, `lost NODE`, `up NODE`, `quorum yes` or `quorum no`, `wait SECONDS` or
/// `report NODE LEAF MS CODE`. A number of an action and MS are from 1 to 4,294,967,295, CODE is from 0 to 255, and after a wait the moment is
/// below 1,099,511,627,776. `TooManyResults` comes after 10,000 result lines. Else the leftmost faulty word counts: `UnknownStatement` at a
/// first word that begins no result line, `MissingWord` where the line ends too early, `ExtraWord` past its end, `UnknownName` at a NODE or
/// LEAF that the cluster doesn't have, and `BadValue` at any other word that isn't one of its place. It asks for a moment below 2^40.
/// Rule of this project.
pub fn read_result(
    names: &Names<'_>,
    moment: u64,
    before: u32,
    line: u32,
    words: &WordBuf,
) -> Result<Answer, ResultFault>
    requires moment { moment < 2 ^ 40 }
    ensures answer { result ≡ result_of names.now moment before line words.now.first }
    ensures whole { (all : List (List ℕ)) → words.now ≡ kept all → result ≡ result_of names.now moment before line all }
    ensures said { (all : List (List ℕ)) → words.now ≡ kept all
        → AsLinesSay (IsResultAnswer names.now moment before all) (IsNoAnswerOn names.now moment before line all) result }
    ensures few { IfOk result (λ _. before < most_results) }
    ensures within { IfOk result (λ answer. moment + seconds_in answer < 2 ^ 40) }
    ensures no_memory { IfErr result (λ fault. fault ≢ found.NoMemory) }
{
    result_of(names, moment, before as usize, line, words)
}

/// All lines, one after the other.
fn results_of(
    alloc: Global,
    names: &Names<'_>,
    journal: &Journal,
    lines: &[Line],
) -> Result<Vec<ResultLine>, ResultFault>
    requires moment { journals.moment_of journal.now.events < 2 ^ 40 }
    ensures { Gives (λ results. results.items) result (results_of names.now (journals.moment_of journal.now.events) lines.now) }
{
    let mut moment = moment_of(journal.events.as_slice()) as u64;
    let mut results = Vec::new(alloc);
    for line in lines {
        let answer = result_of(names, moment, results.len(), line.line, line)?;
        results.push(ResultLine {
            line: line.line,
            answer,
        })?;
        moment += answer.seconds();
    }
    Ok(results)
}

/// Reads result lines, of which the first is taken at the moment of the journal. Each line is read as by `read_result`, after the lines before
/// it and their waits. The fault is that of the first faulty line; `NoMemory` comes when memory runs out. Each line that is read says its
/// answer, by one of the forms in `specs/Grammar`; no form has the words of the line at fault, unless it is behind 10,000 others. It asks for a
/// journal with a moment below 2^40.
pub fn read_results(
    alloc: Global,
    names: &Names<'_>,
    journal: &Journal,
    lines: &[Line],
) -> Result<Vec<ResultLine>, ResultFault>
    requires moment { journals.moment_of journal.now.events < 2 ^ 40 }
    ensures read { Gives (λ results. results.items) result (results_of names.now (journals.moment_of journal.now.events) lines.now) }
    ensures said { AsLinesSay (λ results. ResultsAreSaid names.now (journals.moment_of journal.now.events) lines.now results.items)
        (AreResultsRefused names.now (journals.moment_of journal.now.events) lines.now) result }
{
    results_of(alloc, names, journal, lines)
}
