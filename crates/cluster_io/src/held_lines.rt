ghost use Rattle.std.specs.Prelude.{◌≡◌, ℕ, ◌+◌, ◌*◌, ◌^◌, ◌≤◌, ◌<◌, None, Some, true, false, [], length, IfOk, IfSome};
ghost use Rattle.cluster_io.specs.Streams.{Bears};
ghost use Rattle.cluster_io.specs.NextLine.{holds_line};
ghost use Rattle.cluster_io.specs.Inner.HeldLines.{Stops};
ghost use Rattle.cluster_io.specs.Inner.ReaderTurns.{MayGiveFound, GivesFound, Turned};

use crate::line_scan::{Bounds, Found, Scan, last_line, look};
use crate::window::Window;
use crate::{LineStep, NoMemory, ReadStep, Source};
use std::alloc::Global;
use std::marker::Model;

/// The most bytes that one read asks for.
const PIECE: usize = 4096;

/// Nothing was looked at.
const START: Scan = Scan {
    line: 0,
    scanned: 0,
    content: 0,
    lines: 0,
};

/// The bytes that a reader of lines holds, how far it has looked through them, and the memory for
/// them.
#[derive(Drop)]
pub struct HeldLines {
    window: Window,
    scan: Scan,
    bounds: Bounds,
    next: usize,
    number: u32,
    stop: Option<LineStep>,
}

impl Model for HeldLines {
    ghost use Rattle.cluster_io.specs.Readings.{Reading};
    ghost use Rattle.cluster_io.specs.Inner.HeldLines.{OrderlyScan};

    ghost Value = { Reading };

    ghost view = { λ h. record {
      held = h.window.held;
      raw = h.window.handed;
      number = h.number;
      next = h.next;
      room = h.bounds.room;
      longest = h.bounds.longest;
      stop = h.stop;
      ended = h.window.ended;
    } };

    ghost invariant = { λ h. OrderlyScan h.window h.scan h.bounds h.next h.stop };
}

impl HeldLines {
    /// Nothing is held. It takes memory for a line that has `longest` bytes without line ends and
    /// isn't whole yet, and for one read. Such a line has at most three times as many bytes and one
    /// more: each physical line that is joined to the next one has a backslash and at most two
    /// bytes of line end. It never takes more than the limit and one read. It asks for a limit
    /// below 2^32.
    pub fn new(alloc: Global, limit: usize, longest: usize) -> Result<HeldLines, NoMemory>
        requires { limit < 2 ^ 32 }
        ensures { IfOk result (λ h. h ≡ record {
          held = [];
          raw = [];
          number = 0;
          next = 1;
          room = limit;
          longest = longest;
          stop = None;
          ended = false;
        }) }
    {
        let line = longest.saturating_mul(3).saturating_add(1).min(limit);
        Ok(HeldLines {
            window: Window::new(alloc, line + PIECE)?,
            scan: START,
            bounds: Bounds {
                room: limit,
                longest,
            },
            next: 1,
            number: 0,
            stop: None,
        })
    }

    /// The bytes that are held.
    pub(crate) fn held(&self) -> &[u8]
        ensures { result.now ≡ self.now.held }
    {
        self.window.held()
    }

    /// The line that the last call handed out.
    pub(crate) fn raw(&self) -> &[u8]
        ensures { result.now ≡ self.now.raw }
    {
        self.window.handed()
    }

    /// The number of the first physical line of the line that was handed out last.
    pub(crate) fn number(&self) -> u32
        ensures { result ≡ self.now.number }
    {
        self.number
    }

    /// The answer that it gives from now on.
    pub(crate) fn stop(&self) -> Option<LineStep>
        ensures stop { result ≡ self.now.stop }
        ensures stops { Stops result }
    {
        self.stop
    }

    /// Whether the source has ended.
    pub(crate) fn has_ended(&self) -> bool
        ensures { result ≡ self.now.ended }
    {
        self.window.has_ended()
    }

    /// Lets go of the line that was handed out last.
    pub(crate) fn forget(&mut self)
        ensures { self.new ≡ record self.old { raw = [] } }
    {
        self.window.forget();
    }

    /// Gives what was found.
    fn give(&mut self, found: Found) -> LineStep
        requires may { MayGiveFound found self.old }
        requires empty { self.old.raw ≡ [] }
        ensures { GivesFound found result self.old self.new }
    {
        match found {
            Found::Line(count, lines) => {
                self.window.hand_out(count);
                self.scan = START;
                self.bounds.room -= count;
                self.number = self.next as u32;
                self.next += lines;
                LineStep::Line
            }
            Found::TooLong => {
                self.stop = Some(LineStep::TooLong);
                LineStep::TooLong
            }
            Found::TooLarge | Found::More => {
                self.stop = Some(LineStep::TooLarge);
                LineStep::TooLarge
            }
        }
    }

    /// Looks for the next line in what is held. Where it isn't whole there, makes one read, and
    /// answers None where that gave bytes. Once the source has ended, it makes none.
    pub(crate) fn turn<S: Source>(&mut self, src: &mut S) -> Option<LineStep>
        requires empty { self.old.raw ≡ [] }
        requires at_end { self.old.ended ≡ true → IfSome (S.left src.old) (λ left. left ≡ []) }
        requires same_end { self.old.ended ≡ S.ended src.old }
        ensures turned { Turned result self.old self.new (S.left src.old) (S.left src.new) }
        ensures untouched { holds_line self.old.held ≡ true → src.new ≡ src.old }
        ensures quiet { self.old.ended ≡ true → src.new ≡ src.old }
        ensures same_end { self.new.ended ≡ S.ended src.new }
        ensures bears { Bears S.counts_only_failures (result ≡ Some LineStep.Failed)
            (S.faults src.old) (S.faults src.new) }
    {
        let (scan, found) = look(self.window.held(), self.scan, self.bounds);
        self.scan = scan;
        let Found::More = found else {
            return Some(self.give(found));
        };
        let most = (self.bounds.room + 1 - self.window.held().len()).min(PIECE);
        match self.window.read_from(src, most) {
            ReadStep::Got(_) => None,
            ReadStep::Failed => Some(LineStep::Failed),
            ReadStep::End if self.window.held().is_empty() => Some(LineStep::End),
            ReadStep::End => {
                let last = last_line(self.window.held(), self.scan, self.bounds);
                Some(self.give(last))
            }
        }
    }
}
