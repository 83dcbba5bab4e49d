//! What is read of a whole input with a trace, step by step.

ghost use Rattle.std.specs.Prelude.{◌≡◌, ◌+◌, ◌<◌, ◌≤◌, ◌^◌, IfOk, [], length};
ghost use Rattle.cluster_types.specs.Journals.{moment_of};
ghost use Rattle.cluster_types.specs.Safety.{IsAtRest};
ghost use Rattle.cluster_types.specs.Valid.{IsValid};
ghost use Rattle.faults.specs.Reading.{Gives, faulting};
ghost use Rattle.input_reading.specs.declared.input.cause.InputCause.TheVariants as cause;
ghost use Rattle.input_reading.specs.Reading.{line_behind, most_bytes, behind_cluster};
ghost use Rattle.input_reading.specs.Traces.{trace_of, with_run};
ghost use Rattle.input_reading.specs.RunReading.{read_run_lines};
ghost use Rattle.input_reading.specs.Grammar.LinesSaid.{AsLinesSay};
ghost use Rattle.input_reading.specs.Grammar.TextsSaid.{IsTraceLineRefused, TraceIsSaid};
ghost use Rattle.input_reading.specs.PrintedLines.{AreNamed};

use crate::input::cause::InputCause;
use crate::input::fault::InputFault;
use crate::input::reading::{Configuration, Head, cluster_in, configuration_of, head_of};
use crate::input::sections::{LastSection, lines_after};
use crate::{RunText, read_run};
use cluster_types::Cluster;
use crm_lex::Line;
use names::Names;
use std::alloc::Global;

/// What an input with a trace says: its head, and the lines of a written run.
#[derive(Drop)]
pub struct Trace {
    pub head: Head,
    pub run: RunText,
    /// The number of the line behind the last that has words, or 1 if none has.
    pub after: u32,
}

/// The number of the line behind the last of these.
fn line_behind(lines: &[Line]) -> u32
    requires { line_behind lines.now < 2 ^ 32 }
    ensures { result ≡ line_behind lines.now }
{
    match lines.last() {
        Some(line) => line.line + 1,
        None => 1,
    }
}

fn run_in(alloc: Global, cluster: &Cluster, lines: &[Line]) -> Result<RunText, InputFault>
    requires { IsValid cluster.now }
    ensures run { Gives (λ run. run.lines) result (faulting cause.Run (read_run_lines cluster.now lines.now)) }
    ensures named { IfOk result (λ run. AreNamed run.lines) }
{
    let names = Names::new(alloc, cluster)?;
    read_run(alloc, &names, lines).map_err(|fault| fault.map(InputCause::Run))
}

/// An input with this head and these lines of a run.
#[tactic(auto, unfolding(crate::specs::Traces::with_run))]
fn with_run(alloc: Global, after: u32, head: Head, lines: &[Line]) -> Result<Trace, InputFault>
    requires valid { IsValid head.cluster }
    requires moment { moment_of head.journal.events < 2 ^ 40 }
    ensures trace { Gives (λ trace. trace) result (with_run after head lines.now) }
    ensures named { IfOk result (λ trace. AreNamed trace.run.lines) }
    ensures moment { IfOk result (λ trace. moment_of trace.head.journal.events < 2 ^ 40) }
{
    let run = run_in(alloc, &head.cluster, lines)?;
    Ok(Trace { head, run, after })
}

/// Reads the other sections, where the configuration says this cluster.
fn behind_cluster(
    alloc: Global,
    found: Configuration,
    cluster: Cluster,
) -> Result<Trace, InputFault>
    requires valid { IsValid cluster }
    requires trace { found.marks.results_at ≤ length found.lines }
    requires end { found.marks.end ≤ length found.lines }
    requires numbers { line_behind found.lines < 2 ^ 32 }
    ensures trace { Gives (λ trace. trace) result (behind_cluster (with_run (line_behind found.lines)) found cluster) }
    ensures named { IfOk result (λ trace. AreNamed trace.run.lines) }
    ensures moment { IfOk result (λ trace. moment_of trace.head.journal.events < 2 ^ 40) }
{
    let Configuration {
        lines,
        marks,
        crm,
        leaves: _,
    } = found;
    let lines = lines.as_slice();
    let status = lines_after(lines, marks.status_at, marks.results_at);
    let head = head_of(alloc, crm, cluster, status)?;
    let trace = lines_after(lines, marks.results_at, marks.end);
    with_run(alloc, line_behind(lines), head, trace)
}

/// All steps, one after the other.
#[tactic(auto, unfolding(crate::specs::Traces::trace_of))]
fn trace_of(alloc: Global, text: Vec<u8>) -> Result<Trace, InputFault>
    requires { length text.items ≤ most_bytes }
    ensures trace { Gives (λ trace. trace) result (trace_of text.items) }
    ensures named { IfOk result (λ trace. AreNamed trace.run.lines) }
    ensures moment { IfOk result (λ trace. moment_of trace.head.journal.events < 2 ^ 40) }
{
    let found = configuration_of(alloc, LastSection::Trace, text)?;
    let cluster = cluster_in(alloc, &found)?;
    behind_cluster(alloc, found, cluster)
}

/// Reads a whole input with a trace, of at most 16,777,216 bytes.
///
/// It is read as `read_input` reads one with results, and the lines of its trace as those of a run, the last step. So their faults come behind
/// all others. The lines of its configuration, its status and its run say what is read, each its part; a line at fault is refused as `read_input`
/// says. What is read is valid in the same way, and each rule that the run says to hold a leaf back has a name.
pub fn read_trace(alloc: Global, text: Vec<u8>) -> Result<Trace, InputFault>
    requires { length text.items ≤ most_bytes }
    ensures read { Gives (λ trace. trace) result (trace_of text.items) }
    ensures said { AsLinesSay (TraceIsSaid text.items) (IsTraceLineRefused text.items) result }
    ensures valid { IfOk result (λ trace. IsValid trace.head.cluster) }
    ensures at_rest { IfOk result (λ trace. IsAtRest trace.head.journal.events) }
    ensures moment { IfOk result (λ trace. moment_of trace.head.journal.events < 2 ^ 40) }
    ensures named { IfOk result (λ trace. AreNamed trace.run.lines) }
{
    trace_of(alloc, text)
}
