//! What the lines of a status told so far.

ghost use Rattle.std.specs.Prelude.{◌≡◌, ◌++◌, ◌∷◌, [], IfOk};
ghost use Rattle.input_reading.specs.FirstJournal.{is_repeated};

use crate::status::line_meaning::Fact;
use crate::status::told_keys::ToldKeys;
use faults::NoMemory;
use listed::Listed;
use std::alloc::Global;
use std::marker::Model;

/// What lines told, in their order, with what of it may be told once, found by hashing. Contracts see what the lines told.
#[derive(Drop)]
pub(crate) struct ToldLines {
    lines: Listed<Fact>,
    keys: ToldKeys,
}

impl Model for ToldLines {
    ghost use Rattle.std.specs.Prelude.{List};
    ghost use Rattle.input_reading.specs.declared.status.line_meaning.Fact.{Fact};
    ghost use Rattle.input_reading.specs.Inner.Repeats.{HasToldKeysOf};

    ghost Value = { List Fact };

    ghost view = { λ told. told.lines };

    ghost invariant = { λ told. HasToldKeysOf told.keys told.lines };
}

impl ToldLines {
    /// No lines.
    pub fn new(alloc: Global) -> Self
        ensures { result ≡ [] }
    {
        ToldLines {
            lines: Listed::new(alloc),
            keys: ToldKeys::new(alloc),
        }
    }

    /// Whether one of the lines told what this line tells again, and what may be told once.
    pub fn is_repeated(&self, line: Fact) -> bool
        ensures { result ≡ is_repeated self.now line }
    {
        self.keys.has(line)
    }

    /// The lines, and one more at the end.
    pub fn with(self, line: Fact) -> Result<ToldLines, NoMemory>
        ensures { IfOk result (λ more. more ≡ self ++ line ∷ []) }
    {
        let ToldLines {
            mut lines,
            mut keys,
        } = self;
        keys.add(&line)?;
        lines.push(line)?;
        Ok(ToldLines { lines, keys })
    }

    /// Lends what the lines told.
    pub fn as_slice(&self) -> &[Fact]
        ensures { result.now ≡ self.now }
    {
        self.lines.as_slice()
    }
}
