ghost use Rattle.std.specs.Prelude.{◌≡◌, ℕ, ◌^◌, ◌<◌, None, Some, true, false, [], IfOk};
ghost use Rattle.std.specs.Option.{ForSome};
ghost use Rattle.cluster_io.specs.Streams.{Bears};
ghost use Rattle.cluster_io.specs.NextLine.{holds_line};
ghost use Rattle.cluster_io.specs.Readings.{ReaderAnswered, TellsAnswer};

use crate::held_lines::HeldLines;
use crate::{LineStep, NoMemory, Source};
use std::alloc::Global;

/// Reads a source line by line, and takes no memory after it was made. A logical line is as crmsh
/// has it: a backslash at the end of a physical line joins it with the next one, but for a comment.
/// A comment and a line of blanks are logical lines here.
///
/// It reads only where it holds no whole logical line, at most 4,096 bytes at a time, and looks at
/// each byte that it holds a few times at most. Once the source has ended, it never reads again.
#[derive(Drop)]
pub struct LineReader<'s, S: Source> {
    src: &'s mut S,
    lines: HeldLines,
    ghost same_end: { lines.ended ≡ S.ended src.now },
    ghost at_end: { lines.ended ≡ true → ForSome (S.left src.now) (λ left. left ≡ []) },
}

impl<'s, S: Source> LineReader<'s, S> {
    ghost use Rattle.cluster_io.specs.LineReaders.{reading_of, source_of, loan_of};

    /// A reader of the first `limit` bytes of the source, whose logical lines may have `longest`
    /// bytes without line ends. It takes memory for such a line that isn't whole yet, which has at
    /// most three times as many bytes and one more, and for one read. It asks for a limit below 2^32
    /// and for a source that hasn't ended.
    pub fn new(
        alloc: Global,
        src: &'s mut S,
        limit: usize,
        longest: usize,
    ) -> Result<LineReader<'s, S>, NoMemory>
        requires limit { limit < 2 ^ 32 }
        requires going { S.ended src.old ≡ false }
        ensures reading { IfOk result (λ reader. reading_of reader ≡ record {
          held = [];
          raw = [];
          number = 0;
          next = 1;
          room = limit;
          longest = longest;
          stop = None;
          ended = false;
        }) }
        ensures source { IfOk result (λ reader. source_of reader ≡ src.old) }
        ensures same_source { IfOk result (λ reader. loan_of reader ≡ src.entry.ghost_name) }
    {
        let lines = HeldLines::new(alloc, limit, longest)?;
        Ok(LineReader::over(src, lines))
    }

    /// A reader of the source with memory that was taken before. `new` does both; apart, a caller
    /// knows that the source is as it was when memory runs out. It asks for memory that no reader has
    /// used, and for a source that hasn't ended.
    pub fn over(src: &'s mut S, lines: HeldLines) -> LineReader<'s, S>
        requires fresh { lines.ended ≡ false }
        requires going { S.ended src.old ≡ false }
        ensures reading { reading_of result ≡ lines }
        ensures source { source_of result ≡ src.old }
        ensures same_source { loan_of result ≡ src.entry.ghost_name }
    {
        LineReader { src, lines }
    }

    /// Gives the source back, as it is now. The bytes that are held are lost.
    pub fn into_source(self) -> &'s mut S
        ensures source { result.now ≡ source_of self.entry }
        ensures end { S.ended result.now ≡ (reading_of self.entry).ended }
        ensures same_source { result.ghost_name ≡ loan_of self.entry }
    {
        let LineReader { src, lines: _ } = self;
        src
    }

    /// Looks for the next logical line.
    ///
    /// - `Line`: `raw` gives it, and `number` says where it begins. The last line may lack its line
    ///   end.
    /// - `End`: no byte is held, and the source has ended. Each further call answers the same.
    /// - `TooLong`: within the limit the line has more than `longest` bytes without line ends. A
    ///   carriage return at the limit belongs to the line end if its line feed comes just past it.
    ///   Each further call answers the same.
    /// - `TooLarge`: the line goes past the limit, and isn't too long within it. Each further call
    ///   answers the same.
    /// - `Failed`: the source failed. What was taken is still held and gives no answer yet, and a further call goes on.
    #[tactic(auto, using(crate::proofs::Turns::turns))]
    pub fn line(&mut self) -> LineStep
        ensures answered { (reading_of self.old).stop ≡ None →
            ReaderAnswered result (reading_of self.old) (reading_of self.new)
            (S.left (source_of self.old)) (S.left (source_of self.new)) }
        ensures told { (reading_of self.old).stop ≡ None →
            TellsAnswer result (reading_of self.old) (S.left (source_of self.old)) }
        ensures stopped { (step : LineStep) → (reading_of self.old).stop ≡ Some step →
            (result ≡ step) × (reading_of self.new ≡ reading_of self.old)
            × (source_of self.new ≡ source_of self.old) }
        ensures unread { holds_line (reading_of self.old).held ≡ true →
            source_of self.new ≡ source_of self.old }

        // Once the source has ended, nothing more is asked of it.
        ensures quiet { (reading_of self.old).ended ≡ true → source_of self.new ≡ source_of self.old }

        // The first failed read ends the call.
        ensures bears { Bears S.counts_only_failures (result ≡ LineStep.Failed)
            (S.faults (source_of self.old)) (S.faults (source_of self.new)) }
        ensures same_source { loan_of self.new ≡ loan_of self.old }
    {
        if let Some(step) = self.lines.stop() {
            return step;
        }
        self.lines.forget();
        loop {
            if let Some(step) = self.lines.turn(self.src) {
                return step;
            }
        }
    }

    /// Whether the source has ended.
    pub fn has_ended(&self) -> bool
        ensures { result ≡ (reading_of self.now).ended }
    {
        self.lines.has_ended()
    }

    /// The bytes that were taken from the source and not handed out yet.
    pub fn held(&self) -> &[u8]
        ensures { result.now ≡ (reading_of self.now).held }
    {
        self.lines.held()
    }

    /// The physical lines, with their line ends, of the logical line that the last call of `line`
    /// gave; empty where that answered otherwise.
    pub fn raw(&self) -> &[u8]
        ensures { result.now ≡ (reading_of self.now).raw }
    {
        self.lines.raw()
    }

    /// The number of the first physical line of the logical line that was given last, counted from
    /// 1; 0 before the first.
    pub fn number(&self) -> u32
        ensures { result ≡ (reading_of self.now).number }
    {
        self.lines.number()
    }
}
