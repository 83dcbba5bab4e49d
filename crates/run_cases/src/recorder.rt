//! A sink that keeps the pieces that it is offered.

ghost use Rattle.std.specs.Prelude.{◌≡◌, ◌++◌, ◌∷◌, [], Bool, true, if◌then◌else◌, None, Some, IsTrue};

use cluster_io::{Sink, WriteStep};
use listed::Listed;
use std::alloc::Global;

/// Keeps the pieces that it is offered, and takes at most `step` bytes of each, but one at least.
#[derive(Drop)]
pub struct Recorder {
    alloc: Global,
    pieces: Listed<Listed<u8>>,
    step: usize,
    /// Whether a piece is missing because memory ran out: then it tells nothing.
    lacks: bool,
}

impl Recorder {
    /// A sink that was offered nothing.
    pub fn new(alloc: Global, step: usize) -> Recorder
        ensures { ⟦<Recorder as Sink>⟧.offered result ≡ Some [] }
    {
        Recorder {
            alloc,
            pieces: Listed::new(alloc),
            step,
            lacks: false,
        }
    }

    /// Whether it was offered these pieces.
    pub fn has(&self, pieces: &[&[u8]]) -> bool {
        !self.lacks
            && self.pieces.len() == pieces.len()
            && self
                .pieces
                .iter()
                .zip(pieces)
                .all(|(kept, piece)| kept.as_slice() == *piece)
    }

    /// Keeps a piece behind the others, if there is memory for it.
    fn keep(&mut self, piece: &[u8]) -> bool
        ensures kept { IsTrue result → self.new.pieces ≡ self.old.pieces ++ piece.now ∷ [] }
        ensures lacks { self.new.lacks ≡ self.old.lacks }
    {
        match piece.to_vec(self.alloc) {
            Ok(piece) => self.pieces.push(Listed::from(piece)).is_ok(),
            Err(_) => false,
        }
    }
}

impl Sink for Recorder {
    ghost written = { λ _. None };

    ghost offered = { λ s. if s.lacks then None else Some s.pieces };

    ghost faults = { λ _. 0 };

    ghost counts_only_failures = { true };

    fn write(&mut self, bytes: &[u8]) -> WriteStep {
        if !self.keep(bytes) {
            self.lacks = true;
        }
        WriteStep::Took(bytes.len().min(self.step).max(1))
    }
}
