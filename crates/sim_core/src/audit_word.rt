//! The word `audit`: whether a written run is that of its own answers.

ghost use Rattle.std.specs.Prelude.{◌≡◌, ◌+◌, ◌<◌, ◌^◌, IfOk, length};
ghost use Rattle.cluster_types.specs.Journals.{moment_of};
ghost use Rattle.cluster_types.specs.Safety.{IsAtRest};
ghost use Rattle.cluster_types.specs.Valid.{IsValid};
ghost use Rattle.sim_core.specs.Audit.{IsAuditOutput, clause_name, unlawful_text};
ghost use Rattle.sim_core.specs.LawfulRuns.{Judges};

use crate::input_word::InputWord;
use crate::status::Status;
use crate::text_word::refusal_text;
use crate::{Clause, Verdict, audit};
use faults::NoMemory;
use input_reading::{InputFault, Trace, read_trace};
use std::alloc::Global;
use trace_text::push_number;

/// What is due, as it stands in a line `unlawful LINE CLAUSE`.
fn clause_name(clause: Clause) -> &'static str
    ensures { result.now ≡ clause_name clause }
{
    match clause {
        Clause::Transition => "Transition",
        Clause::Targets => "Targets",
        Clause::Begin => "Begin",
        Clause::Answer => "Answer",
        Clause::Close => "Close",
    }
}

/// `unlawful LINE CLAUSE`.
fn unlawful_text(alloc: Global, line: u32, clause: Clause) -> Result<Vec<u8>, NoMemory>
    ensures { IfOk result (λ text. text.items ≡ unlawful_text line clause) }
{
    let mut text = Vec::from_slice(alloc, b"unlawful ")?;
    push_number(&mut text, line)?;
    text.extend_from_slice(b" ")?;
    text.extend_from_slice(clause_name(clause).as_bytes())?;
    text.extend_from_slice(b"\n")?;
    Ok(text)
}

/// What is found of a trace that was read.
fn verdict_of(alloc: Global, trace: Trace) -> Result<Verdict, NoMemory>
    requires valid { IsValid trace.head.cluster }
    requires at_rest { IsAtRest trace.head.journal.events }
    requires moment { moment_of trace.head.journal.events < 2 ^ 40 }
    requires few { length trace.run.lines + 1 < 2 ^ 32 }
    ensures { IfOk result (Judges trace.head.cluster trace.head.journal trace.run.lines trace.after) }
{
    let Trace { head, run, after } = trace;
    let journal = head.journal;
    audit(alloc, &head.cluster, journal, &run, after)
}

/// The word `audit`.
#[derive(Drop)]
pub(crate) struct AuditWord;

impl InputWord for AuditWord {
    ghost gets = { λ _. IsAuditOutput };

    #[tactic(auto, using(crate::proofs::FewLines::few_in_trace))]
    fn answer(&self, alloc: Global, input: Vec<u8>) -> Result<(Status, Vec<u8>), NoMemory> {
        match read_trace(alloc, input) {
            Ok(trace) => match verdict_of(alloc, trace)? {
                Verdict::Yes => Ok((Status::Done, Vec::from_slice(alloc, b"lawful\n")?)),
                Verdict::No { line, clause } => {
                    Ok((Status::NotLawful, unlawful_text(alloc, line, clause)?))
                }
            },
            Err(InputFault::At { line, cause }) => {
                Ok((Status::Refused, refusal_text(alloc, line, cause)?))
            }
            Err(InputFault::NoMemory) => Err(NoMemory),
        }
    }
}
