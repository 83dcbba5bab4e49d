//! Result lines one by one.

ghost use Rattle.std.specs.Prelude.{◌≡◌, ◌≢◌, ◌+◌, ◌<◌, ◌≤◌, ◌^◌, None, Some, true, length};
ghost use Rattle.cluster_io.specs.LineReaders.{reading_of};
ghost use Rattle.cluster_io.specs.Streams.{Bears};
ghost use Rattle.crm_lex.specs.RawLines.{physical_lines};
ghost use Rattle.live_run.specs.AnswersAtHand.{HoldsResultLine};
ghost use Rattle.live_run.specs.AnswersToCome.{AreReady};
ghost use Rattle.live_run.specs.Inner.ComingSteps.{Brings, answers_in, reads_on, is_stop_last, said_came};
ghost use Rattle.live_run.specs.Inner.ReadSteps.{ReadUntil};
ghost use Rattle.live_run.specs.LineSays.{due_line_says, place_behind_said};
ghost use Rattle.live_run.specs.Inner.LineFits.{SaidFits};

use crate::line_saying::{Said, due_line_says};
use crate::line_stop::{LineCause, LineStop};
use crate::place::Place;
use cluster_io::{LineReader, LineStep, Source};
use crm_lex::{LexCause, WordBuf, line_count};
use input_reading::ResultLine;
use names::Names;

/// What came of reading on.
#[derive(Clone, Copy)]
pub(crate) enum Came {
    Answer(ResultLine),
    /// No line is left.
    End,
    /// The next line is refused, or goes past the limit of bytes.
    Stop(LineStop),
    /// The source of bytes failed, and has counted it.
    Fault,
}

/// Reads result lines one by one. It takes no memory.
#[derive(Drop)]
pub(crate) struct ResultReader<'s, S: Source> {
    pub(crate) lines: LineReader<'s, S>,
    pub(crate) words: WordBuf,
    /// The place of the next line.
    pub(crate) at: Place,
}

/// What came of a line with this number that says this.
fn said_came(said: Said, line: u32) -> Option<Came>
    ensures { result ≡ said_came line said }
{
    match said {
        Said::Nothing => None,
        Said::Answer(answer) => Some(Came::Answer(ResultLine { line, answer })),
        Said::Stop(why) => Some(Came::Stop(why)),
    }
}

impl<'s, S: Source> ResultReader<'s, S> {
    ghost use Rattle.live_run.specs.ResultReaders.{reader_lines, loan_in, source_in};

    /// What the line says that was just handed out. The next place is that behind it.
    fn take_line(&mut self, names: &Names<'_>) -> Option<Came>
        requires moment { self.old.at.moment < 2 ^ 40 }
        requires few { self.old.at.before ≤ 10000 }
        requires line { self.old.at.line ≡ (reading_of self.old.lines).number }
        requires numbers { self.old.at.line + length (physical_lines (reading_of self.old.lines).raw) ≤ 2 ^ 32 }
        ensures came { result ≡ said_came self.old.at.line
            (due_line_says names.now self.old.at (reading_of self.old.lines).raw) }
        ensures place { self.new.at ≡ place_behind_said self.old.at
            (due_line_says names.now self.old.at (reading_of self.old.lines).raw)
            (length (physical_lines (reading_of self.old.lines).raw)) }
        ensures fits { SaidFits self.old.at (due_line_says names.now self.old.at (reading_of self.old.lines).raw) }
        ensures lines { self.new.lines ≡ self.old.lines }
    {
        let line = self.lines.number();
        let raw = self.lines.raw();
        let lines = line_count(raw);
        let said = due_line_says(names, self.at, line, raw, &mut self.words);
        self.at = self.at.behind(said, lines);
        said_came(said, line)
    }

    /// What comes of the next logical line; None where it has no words.
    fn step(&mut self, names: &Names<'_>) -> Option<Came>
        requires ready { AreReady (reader_lines self.old) }
        requires going { (reader_lines self.old).reading.stop ≡ None }
        ensures brings { Brings names.now result (reader_lines self.old) (reader_lines self.new)
            (S.left (source_in self.old)) (S.left (source_in self.new)) }
        ensures until { ReadUntil names.now result (reader_lines self.old) (reader_lines self.new)
            (S.left (source_in self.old)) (S.left (source_in self.new)) }
        ensures ready { AreReady (reader_lines self.new) }
        ensures going { reads_on result ≡ true → (reader_lines self.new).reading.stop ≡ None }
        ensures last { is_stop_last result ≡ true }
        ensures fewer { result ≡ None → (reader_lines self.new).reading.room < (reader_lines self.old).reading.room }
        ensures counted { (reader_lines self.new).at.before ≡ (reader_lines self.old).at.before + answers_in result }
        ensures unread { HoldsResultLine (reader_lines self.old).reading.held → source_in self.new ≡ source_in self.old }
        ensures some { HoldsResultLine (reader_lines self.old).reading.held → result ≢ None }
        ensures at_hand { HoldsResultLine (reader_lines self.old).reading.held → result ≢ Some Came.Fault }

        ensures bears { Bears S.counts_only_failures (result ≡ Some Came.Fault)
            (S.faults (source_in self.old)) (S.faults (source_in self.new)) }
        ensures same_source { loan_in self.new ≡ loan_in self.old }
    {
        match self.lines.line() {
            LineStep::Line => self.take_line(names),
            LineStep::End => Some(Came::End),
            LineStep::TooLong => Some(Came::Stop(LineStop::Refused {
                line: self.at.line as u32,
                cause: LineCause::Words(LexCause::LineTooLong),
            })),
            LineStep::TooLarge => Some(Came::Stop(LineStop::TooLarge)),
            LineStep::Failed => Some(Came::Fault),
        }
    }

    /// What comes next, past all lines without words. A line that is refused or goes past the limit is the last.
    pub(crate) fn read_on(&mut self, names: &Names<'_>) -> Came
        requires ready { AreReady (reader_lines self.old) }
        requires going { (reader_lines self.old).reading.stop ≡ None }
        ensures brings { Brings names.now (Some result) (reader_lines self.old) (reader_lines self.new)
            (S.left (source_in self.old)) (S.left (source_in self.new)) }
        ensures until { ReadUntil names.now (Some result) (reader_lines self.old) (reader_lines self.new)
            (S.left (source_in self.old)) (S.left (source_in self.new)) }
        ensures ready { AreReady (reader_lines self.new) }
        ensures going { reads_on (Some result) ≡ true → (reader_lines self.new).reading.stop ≡ None }
        ensures last { is_stop_last (Some result) ≡ true }
        ensures counted { (reader_lines self.new).at.before ≡ (reader_lines self.old).at.before + answers_in (Some result) }
        ensures unread { HoldsResultLine (reader_lines self.old).reading.held → source_in self.new ≡ source_in self.old }
        ensures at_hand { HoldsResultLine (reader_lines self.old).reading.held → result ≢ Came.Fault }

        ensures bears { Bears S.counts_only_failures (result ≡ Came.Fault)
            (S.faults (source_in self.old)) (S.faults (source_in self.new)) }
        ensures same_source { loan_in self.new ≡ loan_in self.old }
    {
        loop {
            if let Some(came) = self.step(names) {
                return came;
            }
        }
    }
}
