ghost use Rattle.std.specs.Prelude.{◌≡◌, ℕ, ◌+◌, ◌<◌, true, None, Some, [], length, min, Contains, IfOk};
ghost use Rattle.cluster_io.specs.Streams.{Bears, Offers, Writes, next_fault};
ghost use Rattle.cluster_io.specs.Memory.{next_call};

use crate::{NoMemory, Sink, WriteStep};
use std::alloc::Global;
use std::marker::Model;

/// Holds what is written, up to the room that it was made with, and takes at most `step` bytes a
/// call. A call that finds no room left fails, as do the calls whose numbers, counted from 1,
/// stand in `fails`.
#[derive(Drop)]
pub struct MemorySink {
    bytes: Vec<u8>,
    room: usize,
    step: usize,
    fails: Vec<u32>,
    calls: u32,
    faults: u64,
}

impl Model for MemorySink {
    ghost use Rattle.std.specs.Prelude.{◌-◌, ◌≤◌, ◌<◌, vec_len, vec_capacity};
    ghost use Rattle.cluster_io.specs.Memory.{Store};

    ghost Value = { Store };

    ghost view = { λ s. record {
      held = s.bytes.items;
      room = s.room - vec_len s.bytes;
      step = s.step;
      fails = s.fails.items;
      calls = s.calls;
      faults = s.faults;
    } };

    ghost invariant = { λ s. (vec_len s.bytes ≤ s.room) × (s.room ≤ vec_capacity s.bytes) × (0 < s.step) };
}

impl MemorySink {
    /// An empty sink, with memory for `room` bytes. It asks for a step of 1 at least.
    pub fn new(
        alloc: Global,
        room: usize,
        step: usize,
        fails: Vec<u32>,
    ) -> Result<MemorySink, NoMemory>
        requires { 0 < step }
        ensures written { IfOk result (λ s. ⟦<MemorySink as Sink>⟧.written s ≡ Some []) }
        ensures faults { IfOk result (λ s. ⟦<MemorySink as Sink>⟧.faults s ≡ 0) }
        ensures room { IfOk result (λ s. s.room ≡ room) }
        ensures step { IfOk result (λ s. s.step ≡ step) }
        ensures fails { IfOk result (λ s. s.fails ≡ fails.items) }
        ensures calls { IfOk result (λ s. s.calls ≡ 0) }
    {
        let bytes = Vec::with_capacity(alloc, room)?;
        Ok(MemorySink {
            bytes,
            room,
            step,
            fails,
            calls: 0,
            faults: 0,
        })
    }

    /// What was written.
    pub fn bytes(&self) -> &[u8]
        ensures { ⟦<MemorySink as Sink>⟧.written self.now ≡ Some result.now }
    {
        self.bytes.as_slice()
    }

    /// How many more bytes it has room for.
    pub fn room_left(&self) -> usize
        ensures { result ≡ self.now.room }
    {
        self.room - self.bytes.len()
    }

    /// Counts a fault.
    fn fail(&mut self) -> WriteStep
        ensures failed { result ≡ WriteStep.Failed }
        ensures counted { self.new ≡ record self.old { faults = next_fault self.old.faults } }
    {
        self.faults = self.faults.saturating_add(1);
        WriteStep::Failed
    }
}

impl Sink for MemorySink {
    ghost written = { λ s. Some s.held };

    ghost offered = { λ _. None };

    ghost faults = { λ s. s.faults };

    ghost counts_only_failures = { true };

    fn write(&mut self, bytes: &[u8]) -> WriteStep
        requires { 0 < length bytes.now }
        ensures bytes { Writes (Some self.old.held) (Some self.new.held) result bytes.now }
        ensures offered { Offers None bytes.now None }
        ensures bears { Bears true (result ≡ WriteStep.Failed) self.old.faults self.new.faults }

        // It takes as much as it may, and fails with no room left and at the calls named alone.
        ensures takes { (n : ℕ) → result ≡ WriteStep.Took n →
            n ≡ min (min (length bytes.now) self.old.step) self.old.room }
        ensures fails { Contains self.old.fails self.new.calls → result ≡ WriteStep.Failed }
        ensures full { self.old.room ≡ 0 → result ≡ WriteStep.Failed }
        ensures fails_only { result ≡ WriteStep.Failed → 0 < self.old.room →
            Contains self.old.fails self.new.calls }
        ensures room { length self.new.held + self.new.room ≡ length self.old.held + self.old.room }
        ensures calls { self.new.calls ≡ next_call self.old.calls }
        ensures step_stays { self.new.step ≡ self.old.step }
        ensures fails_stay { self.new.fails ≡ self.old.fails }
    {
        self.calls = self.calls.saturating_add(1);
        if self.fails.contains(&self.calls) {
            return self.fail();
        }
        let count = bytes.len().min(self.step).min(self.room_left());
        if count == 0 || self.bytes.extend_from_slice(&bytes[..count]).is_err() {
            return self.fail();
        }
        WriteStep::Took(count)
    }
}
