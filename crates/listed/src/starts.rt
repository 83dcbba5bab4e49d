//! What rows of flags and of lists begin with.

ghost use Rattle.std.specs.Prelude.{◌≡◌, [], false, IfOk, replicate};

use crate::Listed;
use std::alloc::{AllocError, Global};

/// So many flags, none of which is set. Out of memory is the only other answer.
pub fn none_set(alloc: Global, count: u32) -> Result<Vec<bool>, AllocError>
    ensures { IfOk result (λ flags. flags.items ≡ replicate count false) }
{
    let flags = vec![in alloc; false; count as usize]?;
    Ok(flags)
}

/// So many empty lists of numbers. Out of memory is the only other answer.
pub fn empty_lists(alloc: Global, count: u32) -> Result<Vec<Listed<u32>>, AllocError>
    ensures { IfOk result (λ lists. lists.items ≡ replicate count []) }
{
    let mut lists = Vec::new(alloc);
    for _ in 0..count {
        lists.push(Listed::new(alloc))?;
    }
    Ok(lists)
}
