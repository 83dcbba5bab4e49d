ghost use Rattle.std.specs.Prelude.{◌≡◌, ◌≢◌, ℕ, ◌+◌, ◌≤◌, ◌<◌, true, false, [], length, take, drop, IfOk, IfSome};
ghost use Rattle.cluster_io.specs.Streams.{Bears, is_end};
ghost use Rattle.cluster_io.specs.Inner.Reads.{Received, reached};

use crate::{NoMemory, ReadStep, Source};
use std::alloc::Global;
use std::marker::Model;

/// The bytes that were taken from a source and not handed out, and before them the piece that was
/// handed out last. It remembers the end of the source. All of its memory is taken at once.
#[derive(Drop)]
pub(crate) struct Window {
    bytes: Vec<u8>,
    handed: usize,
    start: usize,
    end: usize,
    ended: bool,
}

impl Model for Window {
    ghost use Rattle.std.specs.Prelude.{◌≤◌, slice_range, vec_len};
    ghost use Rattle.cluster_io.specs.Inner.Windows.{Pane};

    ghost Value = { Pane };

    ghost view = { λ w. record {
      handed = slice_range w.bytes.items w.handed w.start;
      held = slice_range w.bytes.items w.start w.end;
      before = w.start;
      room = vec_len w.bytes;
      ended = w.ended;
    } };

    ghost invariant = { λ w. (w.handed ≤ w.start) × (w.start ≤ w.end) × (w.end ≤ vec_len w.bytes) };
}

impl Window {
    /// An empty window with room for so many bytes.
    pub(crate) fn new(alloc: Global, room: usize) -> Result<Window, NoMemory>
        ensures held { IfOk result (λ w. w.held ≡ []) }
        ensures handed { IfOk result (λ w. w.handed ≡ []) }
        ensures room { IfOk result (λ w. w.room ≡ room) }
        ensures ended { IfOk result (λ w. w.ended ≡ false) }
    {
        Ok(Window {
            bytes: vec![in alloc; 0; room]?,
            handed: 0,
            start: 0,
            end: 0,
            ended: false,
        })
    }

    /// Whether the source has ended.
    pub(crate) fn has_ended(&self) -> bool
        ensures { result ≡ self.now.ended }
    {
        self.ended
    }

    /// The bytes that are held.
    pub(crate) fn held(&self) -> &[u8]
        ensures { result.now ≡ self.now.held }
    {
        &self.bytes[self.start..self.end]
    }

    /// The piece that was handed out last.
    pub(crate) fn handed(&self) -> &[u8]
        ensures { result.now ≡ self.now.handed }
    {
        &self.bytes[self.handed..self.start]
    }

    /// Lets go of the piece that was handed out last.
    pub(crate) fn forget(&mut self)
        ensures { self.new ≡ record self.old { handed = [] } }
    {
        self.handed = self.start;
    }

    /// Hands out the first bytes that are held, in place of the piece before.
    pub(crate) fn hand_out(&mut self, count: usize)
        requires { count ≤ length self.old.held }
        ensures handed { self.new.handed ≡ take count self.old.held }
        ensures held { self.new.held ≡ drop count self.old.held }
        ensures room { self.new.room ≡ self.old.room }
        ensures ended { self.new.ended ≡ self.old.ended }
    {
        self.handed = self.start;
        self.start += count;
    }

    /// Moves what is held to the front of the memory. No byte is moved twice before it is handed
    /// out.
    fn move_to_front(&mut self)
        ensures handed { self.new.handed ≡ [] }
        ensures held { self.new.held ≡ self.old.held }
        ensures before { self.new.before ≡ 0 }
        ensures room { self.new.room ≡ self.old.room }
        ensures ended { self.new.ended ≡ self.old.ended }
    {
        if self.start == 0 {
            return;
        }
        let (start, end) = (self.start, self.end);
        self.bytes.copy_within(start..end, 0);
        self.handed = 0;
        self.start = 0;
        self.end = end - start;
    }

    /// Makes one read, for at most so many bytes, behind what is held. Once the source has ended, it
    /// answers so without a read.
    pub(crate) fn read_from<S: Source>(&mut self, src: &mut S, most: usize) -> ReadStep
        requires some { 0 < most }
        requires fits { length self.old.held + most ≤ self.old.room }
        requires at_end { self.old.ended ≡ true → IfSome (S.left src.old) (λ left. left ≡ []) }
        requires same_end { self.old.ended ≡ S.ended src.old }
        ensures received { Received result most self.old.held self.new.held (S.left src.old) (S.left src.new) }
        ensures handed { self.new.handed ≡ [] }
        ensures room { self.new.room ≡ self.old.room }
        ensures ended { self.new.ended ≡ is_end result }
        ensures same_end { self.new.ended ≡ S.ended src.new }
        ensures quiet { self.old.ended ≡ true → src.new ≡ src.old }
        ensures going { result ≢ ReadStep.End → self.old.ended ≡ false }
        ensures bears { Bears S.counts_only_failures (result ≡ ReadStep.Failed)
            (S.faults src.old) (S.faults src.new) }
    {
        if self.ended {
            self.forget();
            return ReadStep::End;
        }
        self.move_to_front();
        let end = self.end;
        let step = read_behind(src, self.bytes.as_mut_slice(), end, most);
        match step {
            ReadStep::Got(count) => self.end = end + count,
            ReadStep::End => self.ended = true,
            ReadStep::Failed => {}
        }
        step
    }
}

/// Makes one read, for at most so many bytes, into the bytes from `end` on.
fn read_behind<S: Source>(src: &mut S, bytes: &mut [u8], end: usize, most: usize) -> ReadStep
    requires some { 0 < most }
    requires fits { end + most ≤ length bytes.old }
    requires going { S.ended src.old ≡ false }
    ensures received { Received result most (take end bytes.old) (reached result end bytes.new) (S.left src.old) (S.left src.new) }
    ensures within { (n : ℕ) → result ≡ ReadStep.Got n → n ≤ most }
    ensures end { S.ended src.new ≡ is_end result }
    ensures bears { Bears S.counts_only_failures (result ≡ ReadStep.Failed)
        (S.faults src.old) (S.faults src.new) }
{
    src.read(&mut bytes[end..end + most])
}
