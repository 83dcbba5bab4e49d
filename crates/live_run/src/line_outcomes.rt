//! A source of answers that are read from lines as they are asked for.

ghost use Rattle.std.specs.Prelude.{◌≡◌, ◌≢◌, ◌≤◌, ◌<◌, ◌^◌, None, Some, true, false, is_none, is_some, IfOk};
ghost use Rattle.cluster_io.specs.LineReaders.{loan_of, reading_of, source_of};
ghost use Rattle.cluster_io.specs.Streams.{Bears, Rose};
ghost use Rattle.graph_exec.specs.Counts.{CountsAnswer, RoseByOne};
ghost use Rattle.live_run.specs.AnswersAtHand.{IsAtHand};
ghost use Rattle.live_run.specs.AnswersToCome.{AreReady};
ghost use Rattle.live_run.specs.Courses.{CourseAnswers, LineStays, faults_of, has_course_ended, is_reading, starting, stop_of, stops_last};
ghost use Rattle.live_run.specs.SourceFollowed.{HasSaid};
ghost use Rattle.live_run.specs.Heads.{CanGoOn};
ghost use Rattle.live_run.specs.ResultReaders.{reader_lines};

use crate::at_hand::begins_result;
use crate::course::Course;
use crate::line_stop::LineStop;
use crate::place::Place;
use crate::result_reader::{Came, ResultReader};
use cluster_io::{LineReader, Source};
use crm_lex::{NoMemory, WordBuf};
use graph_exec::Next;
use names::Names;
use std::alloc::Global;

/// A source of answers: it reads one result line each time that it is asked, and passes over comments and lines without
/// words. The moment of a line is that of the first, and the seconds of the waits before it.
///
/// After the end of the input it is silent for ever. It fails where its source of bytes fails, and goes on from there
/// when it is asked again; and where a line is refused or goes past the limit of bytes, and then for ever. It takes
/// no memory after it was made. Rule of this project.
#[derive(Drop)]
pub struct LineOutcomes<'c, 's, S: Source> {
    names: &'c Names<'c>,
    reader: ResultReader<'s, S>,
    course: Course,
    line: u32,
    failed: bool,
    /// How often it was asked.
    asked: u64,
    ghost ready: { AreReady (reader_lines reader) },
    ghost going: { is_reading course ≡ true → is_none (reader_lines reader).reading.stop ≡ true },
    ghost last: { stops_last course ≡ true },
}

impl<'c, 's, S: Source> LineOutcomes<'c, 's, S> {
    ghost use Rattle.live_run.specs.LineSources.{outcomes_loan, outcomes_source, state_of, outcomes_view};

    /// A source of the answers that the lines of a reader give, of which the first is taken at the moment, in seconds
    /// below 2^40, and has this number: 1 of a new reader, and behind a head the one that `HeadText` gives. The reader was
    /// made for lines of at most 1,048,576 bytes, and can go on. It takes memory for the words of the longest line.
    pub fn new(
        alloc: Global,
        names: &'c Names<'c>,
        moment: u64,
        next: u64,
        reader: LineReader<'s, S>,
    ) -> Result<LineOutcomes<'c, 's, S>, NoMemory>
        requires moment { moment < 2 ^ 40 }
        requires next { next ≡ (reading_of reader).next }
        requires reader { CanGoOn (reading_of reader) }
        ensures standing { IfOk result (λ o. state_of o ≡ starting names.now moment (reading_of reader.entry)) }
        ensures source { IfOk result (λ o. outcomes_source o ≡ source_of reader.entry) }
        ensures same_source { IfOk result (λ o. outcomes_loan o ≡ loan_of reader.entry) }
    {
        let words = WordBuf::new(alloc)?;
        Ok(LineOutcomes::over(names, moment, next, reader, words))
    }

    /// The same, with memory that was taken before. `new` does both; apart, a caller knows that the source is as it
    /// was when memory runs out.
    pub fn over(
        names: &'c Names<'c>,
        moment: u64,
        next: u64,
        reader: LineReader<'s, S>,
        words: WordBuf,
    ) -> LineOutcomes<'c, 's, S>
        requires moment { moment < 2 ^ 40 }
        requires next { next ≡ (reading_of reader).next }
        requires reader { CanGoOn (reading_of reader) }
        ensures standing { state_of result ≡ starting names.now moment (reading_of reader.entry) }
        ensures source { outcomes_source result ≡ source_of reader.entry }
        ensures same_source { outcomes_loan result ≡ loan_of reader.entry }
    {
        let at = Place {
            moment,
            before: 0,
            line: next,
        };
        LineOutcomes {
            names,
            reader: ResultReader {
                lines: reader,
                words,
                at,
            },
            course: Course::Reading,
            line: 0,
            failed: false,
            asked: 0,
        }
    }

    /// Gives the source of bytes back, as it is now. The bytes that are held are lost.
    pub fn into_source(self) -> &'s mut S
        ensures source { result.now ≡ outcomes_source self.entry }
        ensures same_source { result.ghost_name ≡ outcomes_loan self.entry }
    {
        let LineOutcomes {
            names: _,
            reader,
            course: _,
            line: _,
            failed: _,
            asked: _,
        } = self;
        let ResultReader {
            lines,
            words: _,
            at: _,
        } = reader;
        lines.into_source()
    }

    /// The line of the last answer: its first physical line, counted from 1; 0 before the first answer.
    pub fn line(&self) -> u32
        ensures { result ≡ (state_of self.now).line }
    {
        self.line
    }

    /// Why it failed the last time; None before it has failed.
    pub fn stop(&self) -> Option<LineStop>
        ensures { result ≡ stop_of (state_of self.now) }
    {
        match self.course {
            Course::Stopped { why, .. } => Some(why),
            Course::Reading | Course::Ended => {
                if self.failed {
                    Some(LineStop::ReadFault)
                } else {
                    None
                }
            }
        }
    }

    /// Whether the next question surely reads nothing from the source of bytes: a whole line that has words is held, or no
    /// line is read any more. It looks through the first physical line that is held.
    pub fn is_at_hand(&self) -> bool
        ensures { result ≡ true → IsAtHand (state_of self.now) }
    {
        match self.course {
            Course::Reading => begins_result(self.reader.lines.held()),
            Course::Ended | Course::Stopped { .. } => true,
        }
    }

    /// The next answer. `line` then gives its line. It is `Silent` at the end of the input and ever after. It is
    /// `Failed` where the source of bytes failed in this call, and where the next line is refused or goes past the
    /// limit; `stop` then says which. After `is_at_hand` has said yes, it leaves the source of bytes as it is.
    pub fn ask(&mut self) -> Next
        ensures answers { CourseAnswers result (state_of self.old) (state_of self.new)
            (S.left (outcomes_source self.old)) (S.left (outcomes_source self.new)) }
        ensures said { HasSaid S.counts_only_failures (outcomes_view S.left S.faults self.old) (outcomes_view S.left S.faults self.new) result }
        ensures line { LineStays result (state_of self.old).line (state_of self.new).line }
        ensures answered { CountsAnswer result (state_of self.old).lines.at.before (state_of self.new).lines.at.before }
        ensures few { (state_of self.new).lines.at.before ≤ 10000 }
        ensures asked { RoseByOne self.old.asked self.new.asked }
        ensures stop { result ≡ Next.Failed → is_some (stop_of (state_of self.new)) ≡ true }
        ensures unread { IsAtHand (state_of self.old) → outcomes_source self.new ≡ outcomes_source self.old }
        ensures at_hand { IsAtHand (state_of self.old) → result ≡ Next.Failed → stop_of (state_of self.new) ≢ Some LineStop.ReadFault }
        ensures over { has_course_ended (state_of self.old).course ≡ true → has_course_ended (state_of self.new).course ≡ true }

        // How often it and its source have failed.
        ensures failures { faults_of (state_of self.old) (S.faults (outcomes_source self.old))
            ≤ faults_of (state_of self.new) (S.faults (outcomes_source self.new)) }
        ensures cause { result ≡ Next.Failed → Rose (faults_of (state_of self.old) (S.faults (outcomes_source self.old)))
            (faults_of (state_of self.new) (S.faults (outcomes_source self.new))) }
        ensures bears { Bears S.counts_only_failures ((result ≡ Next.Failed) × (stop_of (state_of self.new) ≡ Some LineStop.ReadFault))
            (S.faults (outcomes_source self.old)) (S.faults (outcomes_source self.new)) }
        ensures same_source { outcomes_loan self.new ≡ outcomes_loan self.old }
    {
        self.asked = self.asked.saturating_add(1);
        match self.course {
            Course::Reading => match self.reader.read_on(self.names) {
                Came::Answer(result) => {
                    self.line = result.line;
                    Next::Answer(result.answer)
                }
                Came::End => {
                    self.course = Course::Ended;
                    Next::Silent
                }
                Came::Stop(why) => {
                    self.course = Course::Stopped { why, times: 1 };
                    Next::Failed
                }
                Came::Fault => {
                    self.failed = true;
                    Next::Failed
                }
            },
            Course::Ended => Next::Silent,
            Course::Stopped { why, times } => {
                self.course = Course::Stopped {
                    why,
                    times: times.saturating_add(1),
                };
                Next::Failed
            }
        }
    }
}
