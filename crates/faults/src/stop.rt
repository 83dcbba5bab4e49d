ghost use Rattle.std.specs.Prelude.{◌≡◌};
ghost use Rattle.faults.specs.Reading.{as_fault};

use crate::{Fault, NoMemory};
use std::alloc::{AllocError, AllocFailed};

/// Why the words of a line aren't read: the cause of a word, or memory ran out. The line isn't known yet.
#[derive(Clone, Copy, Debug, PartialEq, Eq, Drop)]
pub enum Stop<C> {
    /// The line is refused.
    Cause(C),
    /// Out of memory.
    NoMemory,
}

impl<C: Drop> Stop<C> {
    /// The fault of the line with this number.
    pub fn at(self, line: u32) -> Fault<C>
        ensures { result ≡ as_fault line self }
    {
        match self {
            Stop::Cause(cause) => Fault::At { line, cause },
            Stop::NoMemory => Fault::NoMemory,
        }
    }
}

impl<C> From<AllocError> for Stop<C> {
    ghost use Rattle.std.specs.Prelude.{◌≡◌};
    ghost use Rattle.faults.specs.declared.stop.Stop.TheVariants.{NoMemory};

    ghost from_gives = { λ _ stop. stop ≡ NoMemory };

    fn from(_: AllocError) -> Self {
        Stop::NoMemory
    }
}

impl<T: Drop, C> From<AllocFailed<T>> for Stop<C> {
    ghost use Rattle.std.specs.Prelude.{◌≡◌};
    ghost use Rattle.faults.specs.declared.stop.Stop.TheVariants.{NoMemory};

    ghost from_gives = { λ _ stop. stop ≡ NoMemory };

    fn from(_: AllocFailed<T>) -> Self {
        Stop::NoMemory
    }
}

impl<C> From<NoMemory> for Stop<C> {
    ghost use Rattle.std.specs.Prelude.{◌≡◌};
    ghost use Rattle.faults.specs.declared.stop.Stop.TheVariants.{NoMemory};

    ghost from_gives = { λ _ stop. stop ≡ NoMemory };

    fn from(_: NoMemory) -> Self {
        Stop::NoMemory
    }
}
