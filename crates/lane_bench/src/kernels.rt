ghost use Rattle.std.specs.Prelude.{◌≡◌, ℕ, ℤ, ◌<◌, ◌+ℤ◌, List, length, map};
ghost use Rattle.score.specs.Row.{IsSumInRange, Stands, finite_at};
ghost use Rattle.score.specs.Total.{total_of};

use crate::data::{NODES, above_least, most_nodes, row_of, score_of, scores_of, sum_of};
use score::{
    NoMemory, Row, Score, add_row, add_row_plain, candidates, candidates_plain, greatest,
    greatest_plain, totals, totals_plain,
};
use std::alloc::Global;

/// How often each kernel is called in one pass.
const ROUNDS: u32 = 1000;

/// Which form of a kernel is called.
#[derive(Clone, Copy)]
pub enum Form {
    Lanes,
    Plain,
}

#[derive(Clone, Copy)]
pub enum Kernel {
    AddRow,
    Totals,
    Candidates,
    Greatest,
}

/// One pass of a kernel: a checksum of what it gives.
pub fn pass(alloc: Global, kernel: Kernel, form: Form) -> Result<u64, NoMemory> {
    match kernel {
        Kernel::AddRow => add_rows(alloc, form),
        Kernel::Totals => total_rows(alloc, form),
        Kernel::Candidates => Ok(keep_nodes(form)),
        Kernel::Greatest => Ok(choose_nodes(form)),
    }
}

fn add_by(form: Form, into: &mut Row, other: &Row)
    requires nodes { length into.old ≡ length other.now }
    requires room { (n : ℕ) → n < length into.old
        → IsSumInRange (finite_at into.old n +ℤ finite_at other.now n) }
    ensures nodes { length into.new ≡ length into.old }
    ensures finite { (n : ℕ) → n < length into.old
        → finite_at into.new n ≡ (finite_at into.old n +ℤ finite_at other.now n) }
{
    match form {
        Form::Lanes => add_row(into, other),
        Form::Plain => add_row_plain(into, other),
    }
}

fn add_rows(alloc: Global, form: Form) -> Result<u64, NoMemory> {
    let mut into = Row::zeros(alloc, NODES)?;
    let other = row_of(alloc, 1)?;
    let mut round = 0;
    while round < ROUNDS {
        add_by(form, &mut into, &other);
        round += 1;
    }
    let mut out = [Score { points: 0 }; 256];
    totals_plain(&into, &mut out);
    Ok(sum_of(&out))
}

fn total_by(form: Form, row: &Row, out: &mut [Score])
    requires { length row.now ≡ length out.old }
    ensures { (terms : List (List ℤ)) → Stands row.now terms → out.new ≡ map total_of terms }
{
    match form {
        Form::Lanes => totals(row, out),
        Form::Plain => totals_plain(row, out),
    }
}

fn total_rows(alloc: Global, form: Form) -> Result<u64, NoMemory> {
    let even = row_of(alloc, 2)?;
    let odd = row_of(alloc, 3)?;
    let mut out = [Score { points: 0 }; 256];
    let mut sum = 0u64;
    for round in 0..ROUNDS / 2 {
        let node = (round % NODES) as usize;
        total_by(form, &even, &mut out);
        sum = sum.wrapping_add(above_least(out[node]));
        total_by(form, &odd, &mut out);
        sum = sum.wrapping_add(above_least(out[node]));
    }
    Ok(sum.wrapping_add(sum_of(&out)))
}

fn keep_nodes(form: Form) -> u64 {
    let mut scores = scores_of(4);
    let within = most_nodes();
    let mut kept = 0u64;
    for round in 0..ROUNDS {
        let node = round % NODES;
        scores[node as usize] = score_of(node, round);
        let set = match form {
            Form::Lanes => candidates(&scores, &within),
            Form::Plain => candidates_plain(&scores, &within),
        };
        kept = kept
            .wrapping_mul(3)
            .wrapping_add(u64::from(set.has((node + 5) % NODES)));
    }
    kept
}

fn choose_nodes(form: Form) -> u64 {
    let mut scores = scores_of(5);
    let among = most_nodes();
    let loads = [1u32; 256];
    let mut sum = 0u64;
    for round in 0..ROUNDS {
        let node = round % NODES;
        scores[node as usize] = score_of(node, round);
        let best = match form {
            Form::Lanes => greatest(&scores, &loads, &among),
            Form::Plain => greatest_plain(&scores, &loads, &among),
        };
        sum = sum
            .wrapping_mul(3)
            .wrapping_add(u64::from(best.unwrap_or(NODES)));
    }
    sum
}
