//! Rows that are added to rows.

ghost use Rattle.std.specs.Prelude.{◌≡◌, ◌<◌, ◌≤◌, ◌+ℤ◌, ◌++◌, ℕ, ℤ, List, length, IfOk};
ghost use Rattle.score.specs.Row.{IsSumInRange, finite_at};
ghost use Rattle.placement.specs.Rows.{IsRow, IsRoomy};

use score::{NoMemory, Row, add_row};
use std::alloc::Global;

/// Adds the terms of a row to those of another.
fn add_terms(into: &mut Row, other: &Row)
    requires nodes { length into.old ≡ length other.now }
    requires room { (n : ℕ) → n < length into.old → IsSumInRange (finite_at into.old n +ℤ finite_at other.now n) }
    ensures terms { (nodes : ℕ) (f g : ℕ → List ℤ) → IsRow nodes f into.old → IsRow nodes g other.now
        → IsRow nodes (λ n. f n ++ g n) into.new }
    ensures nodes { length into.new ≡ length into.old }
    ensures finite { (n : ℕ) → n < length into.old → finite_at into.new n ≡ (finite_at into.old n +ℤ finite_at other.now n) }
{
    add_row(into, other);
}

/// A row with the terms of this one. Out of memory is the only other answer.
pub fn copy_of(alloc: Global, row: &Row, nodes: u32) -> Result<Row, NoMemory>
    requires few { nodes ≤ 256 }
    requires row { length row.now ≡ nodes }
    requires roomy { (n : ℕ) → IsRoomy (finite_at row.now n) }
    ensures terms { IfOk result (λ copy. (f : ℕ → List ℤ) → IsRow nodes f row.now → IsRow nodes f copy) }
    ensures nodes { IfOk result (λ copy. length copy ≡ nodes) }
    ensures finite { IfOk result (λ copy. (n : ℕ) → n < nodes → finite_at copy n ≡ finite_at row.now n) }
{
    let mut copy = Row::zeros(alloc, nodes)?;
    add_terms(&mut copy, row);
    Ok(copy)
}

/// The terms of both rows. Out of memory is the only other answer.
pub fn both(alloc: Global, one: &Row, other: &Row, nodes: u32) -> Result<Row, NoMemory>
    requires few { nodes ≤ 256 }
    requires one { length one.now ≡ nodes }
    requires other { length other.now ≡ nodes }
    requires roomy { (n : ℕ) → IsRoomy (finite_at one.now n) }
    requires room { (n : ℕ) → n < nodes → IsSumInRange (finite_at one.now n +ℤ finite_at other.now n) }
    ensures terms { IfOk result (λ row. (f g : ℕ → List ℤ) → IsRow nodes f one.now → IsRow nodes g other.now
        → IsRow nodes (λ n. f n ++ g n) row) }
    ensures nodes { IfOk result (λ row. length row ≡ nodes) }
{
    let mut row = copy_of(alloc, one, nodes)?;
    add_terms(&mut row, other);
    Ok(row)
}
