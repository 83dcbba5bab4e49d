//! Flags of nodes: 0 where a flag is lowered.

ghost use Rattle.std.specs.Prelude.{◌≡◌, ◌<◌, length, slice_index, slice_set, if◌then◌else◌};

use crate::addition::Addition;
use std::simd::prelude::*;

/// Flags are raised where either is.
pub(crate) struct Flags;

impl Addition for Flags {
    ghost use Rattle.std.specs.Int.Bits.{bit_or};

    ghost fits = { λ ours theirs. Unit {0} };

    ghost joined = { bit_or };

    #[inline(always)]
    fn join(ours: u64, theirs: u64) -> u64 {
        ours | theirs
    }

    #[inline(always)]
    fn join_lanes(ours: u64x8, theirs: u64x8) -> u64x8 {
        ours | theirs
    }
}

/// Sets the flag of a node where `raised`, and else leaves it.
pub(crate) fn raise(flags: &mut [u64], node: usize, raised: bool)
    requires { node < length flags.old }
    ensures { flags.new ≡ slice_set flags.old node (if raised then 1 else slice_index flags.old node) }
{
    if raised {
        flags[node] = 1;
    }
}
