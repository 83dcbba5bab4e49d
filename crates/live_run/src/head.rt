//! The head of an input, line by line.

ghost use Rattle.std.specs.Prelude.{◌≡◌, ◌≢◌, ℕ, ◌+◌, ◌<◌, ◌≤◌, ◌^◌, Option, List, [], Some, None, Ok, Err, false, true, length, ◌++◌, IfOk, IfErr, IfSome, IsErrOf};
ghost use Rattle.cluster_io.specs.LineReaders.{loan_of, reading_of, source_of};
ghost use Rattle.cluster_io.specs.NextLine.{holds_line, IsUndecided};
ghost use Rattle.cluster_io.specs.Streams.{Bears};
ghost use Rattle.crm_lex.specs.RawLines.{physical_lines};
ghost use Rattle.cluster_io.specs.Readings.{Reading};
ghost use Rattle.crm_lex.specs.Reading.{kept, reads_line};
ghost use Rattle.faults.specs.declared.fault.Fault.TheVariants as found;
ghost use Rattle.live_run.specs.Heads.{CanGoOn, HasHeadGoneOn, HeadFound, IsAmid, IsStopOf, KeepsBytes, begins_results, head_behind, line_by_words, so_far, taken, found_by};
ghost use Rattle.live_run.specs.Inner.HeadSteps.{BringsHead, StillAmid, WhileWell, came_to, lacks_memory, stop_for};

use cluster_io::{LineReader, LineStep, Source};
use crm_lex::{LexCause, LexFault, WordBuf, lex_one, line_count};
use input_reading::InputCause;
use std::alloc::Global;

/// Why the head of an input isn't read.
#[derive(Clone, Copy, Debug, PartialEq, Eq)]
pub enum HeadStop {
    /// The source failed, and has counted it.
    ReadFault,
    /// A line goes past the limit of bytes.
    TooLarge,
    /// A line is refused. `read_head` says so of the first that can't be cut into words, and who reads what the head says, of
    /// the first at fault.
    Refused { line: u32, cause: InputCause },
    NoMemory,
}

/// The first word of the line that begins the results.
const RESULTS: &[u8] = b"%results";

/// The head of an input.
#[derive(Drop)]
pub struct HeadText {
    /// Its bytes, to the end of the line that begins the results, if there is one.
    pub text: Vec<u8>,
    /// The number of the line behind it, counted from 1.
    pub next: u64,
}

/// The line of these words begins the results.
fn begins_results(words: &WordBuf) -> bool
    ensures { (all : List (List ℕ)) → words.now ≡ kept all → result ≡ begins_results all }
{
    match words.word(0) {
        Some(word) => word == RESULTS,
        None => false,
    }
}

fn refused(fault: LexFault) -> HeadStop
    requires { fault ≢ found.NoMemory }
    ensures { result ≡ stop_for fault }
{
    match fault {
        LexFault::At { line, cause } => HeadStop::Refused {
            line,
            cause: InputCause::Words(cause),
        },
        LexFault::NoMemory => unreachable!(),
    }
}

/// Takes into the text the line that was just handed out. None where the head goes on behind it.
fn take_line<S: Source>(
    reader: &LineReader<'_, S>,
    words: &mut WordBuf,
    head: &mut HeadText,
) -> Option<Result<(), HeadStop>>
    requires numbers { (reading_of reader.now).number + length (physical_lines (reading_of reader.now).raw) ≤ 2 ^ 32 }
    requires next { head.old.next ≡ (reading_of reader.now).number }
    ensures says { lacks_memory result ≡ false → (text : List ℕ) (reading : Reading) (others : HeadFound) → came_to result text reading others
        ≡ found_by (line_by_words (reads_line (reading_of reader.now).number (reading_of reader.now).raw)) (taken text reading.next reading.room) others }
    ensures text { lacks_memory result ≡ false → head.new.text.items ≡ head.old.text.items ++ (reading_of reader.now).raw }
    ensures next { head.new.next ≡ head.old.next + length (physical_lines (reading_of reader.now).raw) }
    ensures fault { result ≢ Some (Err HeadStop.ReadFault) }
{
    let raw = reader.raw();
    head.next += line_count(raw) as u64;
    if head.text.extend_from_slice(raw).is_err() {
        return Some(Err(HeadStop::NoMemory));
    }
    match lex_one(reader.number(), raw, words) {
        Ok(()) => begins_results(words).then_some(Ok(())),
        Err(fault) => Some(Err(refused(fault))),
    }
}

/// Takes the next line into the text. None where the head goes on behind it.
fn step<S: Source>(
    reader: &mut LineReader<'_, S>,
    words: &mut WordBuf,
    head: &mut HeadText,
) -> Option<Result<(), HeadStop>>
    requires can { CanGoOn (reading_of reader.old) }
    requires next { head.old.next ≡ (reading_of reader.old).next }
    ensures brings { BringsHead result (so_far head.old.text.items (reading_of reader.old)) (so_far head.new.text.items (reading_of reader.new))
        (S.left (source_of reader.old)) (S.left (source_of reader.new)) }
    ensures keeps { lacks_memory result ≡ false
        → KeepsBytes (so_far head.old.text.items (reading_of reader.old)) (so_far head.new.text.items (reading_of reader.new))
        (S.left (source_of reader.old)) (S.left (source_of reader.new)) }
    ensures can { WhileWell result (CanGoOn (reading_of reader.new)) }
    ensures next { head.new.next ≡ (reading_of reader.new).next }
    ensures fewer { result ≡ None → (reading_of reader.new).room < (reading_of reader.old).room }
    ensures within { WhileWell result (length head.new.text.items + (reading_of reader.new).room ≡ length head.old.text.items + (reading_of reader.old).room) }
    ensures gone_on { StillAmid result ((first : Reading) (given : Option (List ℕ))
        → HasHeadGoneOn first (reading_of reader.old) head.old.text.items given (S.left (source_of reader.old))
        → HasHeadGoneOn first (reading_of reader.new) head.new.text.items given (S.left (source_of reader.new))) }
    ensures not_ended { result ≡ Some (Err HeadStop.ReadFault) → (reading_of reader.new).ended ≡ false }
    ensures amid { result ≡ Some (Err HeadStop.ReadFault) → holds_line (reading_of reader.new).held ≡ false }
    ensures undecided { result ≡ Some (Err HeadStop.ReadFault)
        → IsUndecided (reading_of reader.new).room (reading_of reader.new).longest (reading_of reader.new).held }
    ensures short { result ≡ Some (Ok tt) → length (reading_of reader.new).held < 4096 }

    ensures bears { Bears S.counts_only_failures (result ≡ Some (Err HeadStop.ReadFault)) (S.faults (source_of reader.old)) (S.faults (source_of reader.new)) }
    ensures same_source { loan_of reader.new ≡ loan_of reader.old }
{
    match reader.line() {
        LineStep::Line => take_line(reader, words, head),
        LineStep::End => Some(Ok(())),
        LineStep::TooLong => Some(Err(HeadStop::Refused {
            line: head.next as u32,
            cause: InputCause::Words(LexCause::LineTooLong),
        })),
        LineStep::TooLarge => Some(Err(HeadStop::TooLarge)),
        LineStep::Failed => Some(Err(HeadStop::ReadFault)),
    }
}

/// Reads the head of an input from a reader that has handed out nothing: the logical lines up to the one whose first word is
/// `%results`, or to the end. Each line is cut into words as it is read, so that the first fault of words ends the reading.
/// The reader was made for lines of at most 1,048,576 bytes. `NoMemory` comes when memory runs out. Rule of this project.
pub fn read_head<S: Source>(
    alloc: Global,
    reader: &mut LineReader<'_, S>,
    words: &mut WordBuf,
) -> Result<HeadText, HeadStop>
    requires can { CanGoOn (reading_of reader.old) }
    requires first { (reading_of reader.old).next ≡ 1 }
    ensures head { IfSome (S.left (source_of reader.old))
        (λ left. IfOk result (λ head. head_behind [] (reading_of reader.old) left ≡ taken head.text.items head.next (reading_of reader.new).room)) }
    ensures stop { IfSome (S.left (source_of reader.old)) (λ left. IfErr result (IsStopOf (head_behind [] (reading_of reader.old) left))) }
    ensures amid { IfErr result (λ why. why ≡ HeadStop.ReadFault → IsAmid (reading_of reader.old) (reading_of reader.new)
        (S.left (source_of reader.old)) (S.left (source_of reader.new))) }
    ensures behind { IfOk result (λ head. KeepsBytes (so_far [] (reading_of reader.old)) (so_far head.text.items (reading_of reader.new))
        (S.left (source_of reader.old)) (S.left (source_of reader.new))) }
    ensures short { IfOk result (λ head. length (reading_of reader.new).held < 4096) }
    ensures within { IfOk result (λ head. length head.text.items ≤ (reading_of reader.old).room) }
    ensures place { IfOk result (λ head. (CanGoOn (reading_of reader.new)) × (head.next ≡ (reading_of reader.new).next)) }

    ensures bears { Bears S.counts_only_failures (IsErrOf result HeadStop.ReadFault) (S.faults (source_of reader.old)) (S.faults (source_of reader.new)) }
    ensures same_source { loan_of reader.new ≡ loan_of reader.old }
{
    let mut head = HeadText {
        text: Vec::new(alloc),
        next: 1,
    };
    loop {
        if let Some(end) = step(reader, words, &mut head) {
            return match end {
                Ok(()) => Ok(head),
                Err(why) => Err(why),
            };
        }
    }
}
