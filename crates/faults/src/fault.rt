ghost use Rattle.faults.specs.Reading.{IsCaused};

use crate::NoMemory;
use std::alloc::{AllocError, AllocFailed};
use std::fmt::Display;
use thiserror::Error;

/// Why nothing is read of an input: a line is refused, or memory ran out. `C` lists the causes that a reader knows.
#[derive(Clone, Copy, Debug, PartialEq, Eq, Drop, Error)]
#[error_bound(C: Display)]
pub enum Fault<C> {
    /// A line is refused.
    #[error("line {line}: {cause}")]
    At {
        /// The physical line, counted from 1.
        line: u32,
        /// Its cause. Where a line has several, the reader says which comes first.
        cause: C,
    },
    /// Out of memory.
    #[error("out of memory")]
    NoMemory,
}

impl<C: Drop> Fault<C> {
    /// The same fault with its cause as another one.
    pub fn map<D, F: FnOnce(C) -> D + Drop>(self, cause_of: F) -> Fault<D>
        requires { F.IsAlwaysCallable cause_of }
        ensures { IsCaused (F.post cause_of) self result }
    {
        match self {
            Fault::At { line, cause } => Fault::At {
                line,
                cause: cause_of(cause),
            },
            Fault::NoMemory => Fault::NoMemory,
        }
    }
}

impl<C> From<AllocError> for Fault<C> {
    ghost use Rattle.std.specs.Prelude.{◌≡◌};
    ghost use Rattle.faults.specs.declared.fault.Fault.TheVariants.{NoMemory};

    ghost from_gives = { λ _ fault. fault ≡ NoMemory };

    fn from(_: AllocError) -> Self {
        Fault::NoMemory
    }
}

impl<T: Drop, C> From<AllocFailed<T>> for Fault<C> {
    ghost use Rattle.std.specs.Prelude.{◌≡◌};
    ghost use Rattle.faults.specs.declared.fault.Fault.TheVariants.{NoMemory};

    ghost from_gives = { λ _ fault. fault ≡ NoMemory };

    fn from(_: AllocFailed<T>) -> Self {
        Fault::NoMemory
    }
}

impl<C> From<NoMemory> for Fault<C> {
    ghost use Rattle.std.specs.Prelude.{◌≡◌};
    ghost use Rattle.faults.specs.declared.fault.Fault.TheVariants.{NoMemory};

    ghost from_gives = { λ _ fault. fault ≡ NoMemory };

    fn from(_: NoMemory) -> Self {
        Fault::NoMemory
    }
}
