//! The lines of a run, read.

ghost use Rattle.std.specs.Prelude.{◌≡◌, IfOk};
ghost use Rattle.faults.specs.Reading.{Gives};
ghost use Rattle.input_reading.specs.RunReading.{read_run_lines, text_line};
ghost use Rattle.input_reading.specs.Inner.LentLines.{said_of};
ghost use Rattle.input_reading.specs.Grammar.LinesSaid.{AsLinesSay, IsRunRefused, RunIsSaid};
ghost use Rattle.input_reading.specs.PrintedLines.{AreNamed};

use crate::run::line::{Said, line_of_words};
use crate::run::text::{RunText, RunTextLine, TraceFault};
use cluster_types::{NoReason, RunLine};
use crm_lex::{Line, Name};
use faults::NoMemory;
use listed::Listed;
use names::Names;
use std::alloc::Global;

/// What was said, with memory of its own.
fn kept(alloc: Global, said: Said<'_>) -> Result<RunLine, NoMemory>
    ensures { IfOk result (λ what. what ≡ said_of said.entry) }
{
    match said {
        Said::Line(line) => Ok(line),
        Said::Held(leaf, id) => {
            let id = Name::from_bytes(alloc, id)?;
            Ok(RunLine::Lacking(leaf, NoReason::Held(id)))
        }
    }
}

fn text_line(alloc: Global, names: &Names<'_>, line: &Line) -> Result<RunTextLine, TraceFault>
    ensures { Gives (λ read. read) result (text_line names.now line.now) }
{
    match line_of_words(names, line) {
        Ok(said) => {
            let what = kept(alloc, said)?;
            Ok(RunTextLine {
                line: line.line,
                what,
            })
        }
        Err(cause) => Err(TraceFault::At {
            line: line.line,
            cause,
        }),
    }
}

/// All lines, one after the other.
fn run_lines(alloc: Global, names: &Names<'_>, lines: &[Line]) -> Result<RunText, TraceFault>
    ensures lines { Gives (λ text. text.lines) result (read_run_lines names.now lines.now) }
    ensures named { IfOk result (λ text. AreNamed text.lines) }
{
    let mut read = Vec::new(alloc);
    for line in lines {
        read.push(text_line(alloc, names, line)?)?;
    }
    Ok(RunText {
        lines: Listed::from(read),
    })
}

/// Reads the lines of a run as `write_line` writes them.
///
/// The lines are `transition K`, `pinned LEAF unmanaged` or `blocked`, `target LEAF NODE started` or `promoted`, `none
/// LEAF REASON`, `begin NUMBER WHAT`, `complete K`, `aborted K`, `unexpected LINE`, and the result lines. REASON is
/// `NoCopies`, `Stopped`, `OnFail`, `StopAll`, `NoQuorum`, `NoNode` or `Held RULE`. WHAT is `fence NODE`, `probe LEAF
/// NODE`, `start LEAF NODE` and so with `stop`, `promote` and `demote`, `monitor LEAF NODE MS`, `migrate_to LEAF NODE
/// NODE` or `migrate_from LEAF NODE NODE`. K, NUMBER, LINE and MS are from 1 to 4,294,967,295; a wait is below
/// 1,099,511,627,776 seconds; leading zeros are allowed. A monitor has the role of the leaf's monitor of this interval.
///
/// The fault is that of the first faulty line, and there of its leftmost faulty word: `UnknownStatement` at a first
/// word that begins no such line, `MissingWord` where the line ends too early, `ExtraWord` past its end, `UnknownName`
/// at a NODE or LEAF that the cluster doesn't have, and `BadValue` at any other word that isn't one of its place.
/// `NoMemory` comes when memory runs out. Each line that is read says what is read, by one of the forms in `specs/Grammar`, and no form has the
/// words of the line at fault. Rule of this project.
pub fn read_run(alloc: Global, names: &Names<'_>, lines: &[Line]) -> Result<RunText, TraceFault>
    ensures lines { Gives (λ text. text.lines) result (read_run_lines names.now lines.now) }
    ensures named { IfOk result (λ text. AreNamed text.lines) }
    ensures said { AsLinesSay (λ text. RunIsSaid names.now lines.now text.lines) (IsRunRefused names.now lines.now) result }
{
    run_lines(alloc, names, lines)
}
