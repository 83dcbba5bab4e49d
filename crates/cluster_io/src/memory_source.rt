ghost use Rattle.std.specs.Prelude.{◌≡◌, ◌↔◌, ℕ, ◌<◌, true, false, Some, [], length, min, Contains};
ghost use Rattle.cluster_io.specs.Streams.{Bears, ReadsBytes, is_end};
ghost use Rattle.cluster_io.specs.Memory.{next_call};

use crate::{ReadStep, Source};
use std::marker::Model;

/// Gives the bytes of a list, at most `step` of them a call. The calls whose numbers, counted
/// from 1, stand in `fails` fail and give nothing.
#[derive(Drop)]
pub struct MemorySource {
    bytes: Vec<u8>,
    at: usize,
    step: usize,
    fails: Vec<u32>,
    calls: u32,
    faults: u64,
    ended: bool,
}

impl Model for MemorySource {
    ghost use Rattle.std.specs.Prelude.{◌≤◌, ◌<◌, drop, vec_len};
    ghost use Rattle.cluster_io.specs.Memory.{Supply};

    ghost Value = { Supply };

    ghost view = { λ s. record {
      left = drop s.at s.bytes.items;
      step = s.step;
      fails = s.fails.items;
      calls = s.calls;
      faults = s.faults;
      ended = s.ended;
    } };

    ghost invariant = { λ s. (s.at ≤ vec_len s.bytes) × (0 < s.step) };
}

impl MemorySource {
    /// A source of these bytes. It asks for a step of 1 at least.
    pub fn new(bytes: Vec<u8>, step: usize, fails: Vec<u32>) -> MemorySource
        requires { 0 < step }
        ensures left { ⟦<MemorySource as Source>⟧.left result ≡ Some bytes.items }
        ensures faults { ⟦<MemorySource as Source>⟧.faults result ≡ 0 }
        ensures going { ⟦<MemorySource as Source>⟧.ended result ≡ false }
        ensures step { result.step ≡ step }
        ensures fails { result.fails ≡ fails.items }
        ensures calls { result.calls ≡ 0 }
    {
        MemorySource {
            bytes,
            at: 0,
            step,
            fails,
            calls: 0,
            faults: 0,
            ended: false,
        }
    }
}

impl Source for MemorySource {
    ghost left = { λ s. Some s.left };

    ghost faults = { λ s. s.faults };

    ghost counts_only_failures = { true };

    ghost ended = { λ s. s.ended };

    fn read(&mut self, buf: &mut [u8]) -> ReadStep
        requires room { 0 < length buf.old }
        requires going { self.old.ended ≡ false }
        ensures bytes { ReadsBytes (Some self.old.left) (Some self.new.left) result buf.new }
        ensures bears { Bears true (result ≡ ReadStep.Failed) self.old.faults self.new.faults }
        ensures end { self.new.ended ≡ is_end result }

        // It gives as much as it may, and fails at the calls named and no other.
        ensures gives { (n : ℕ) → result ≡ ReadStep.Got n →
            n ≡ min (min (length self.old.left) self.old.step) (length buf.old) }
        ensures fails { (result ≡ ReadStep.Failed) ↔ Contains self.old.fails self.new.calls }
        ensures calls { self.new.calls ≡ next_call self.old.calls }
        ensures step_stays { self.new.step ≡ self.old.step }
        ensures fails_stay { self.new.fails ≡ self.old.fails }
    {
        self.calls = self.calls.saturating_add(1);
        if self.fails.contains(&self.calls) {
            self.faults = self.faults.saturating_add(1);
            return ReadStep::Failed;
        }
        let left = &self.bytes[self.at..];
        let count = left.len().min(self.step).min(buf.len());
        if count == 0 {
            self.ended = true;
            return ReadStep::End;
        }
        buf[..count].copy_from_slice(&left[..count]);
        self.at += count;
        ReadStep::Got(count)
    }
}
