ghost use Rattle.std.specs.Prelude.{◌≡◌, ◌≢◌, ℕ, ◌<◌, ◌≤◌, ◌+ℤ◌, pos, neg_ℤ, List, [], length, replicate, IfOk, ℤ};
ghost use Rattle.std.specs.Ordering.{int_eq};
ghost use Rattle.score.specs.Row.{Stands, IsSumInRange, finite_at, finite_part, with_term, together};
ghost use Rattle.score.specs.Total.{infinity};

use crate::addition::add;
use crate::flags::Flags;
use crate::form::Form;
use crate::sums::{BIAS, Sums};
use crate::{NoMemory, Score, flags, sums};
use std::alloc::Global;
use std::marker::Model;

const INFINITY: i32 = 1_000_000;

/// Of each node, what its total needs of its terms: whether -INFINITY is among them, whether INFINITY is, and the exact sum of the others.
#[derive(Drop)]
pub struct Row {
    pub(crate) minus: Vec<u64>,
    pub(crate) plus: Vec<u64>,
    pub(crate) sums: Vec<u64>,
}

impl Model for Row {
    ghost use Rattle.std.specs.Prelude.{◌≡◌, List, vec_len};
    ghost use Rattle.score.specs.Row.{Tally};
    ghost use Rattle.score.specs.StoredRows.{tallies};

    ghost Value = { List Tally };

    ghost view = { λ row. tallies row.minus.items row.plus.items row.sums.items };

    ghost invariant = { λ row. (vec_len row.minus ≡ vec_len row.sums) × (vec_len row.plus ≡ vec_len row.sums) };
}

fn is_minus(term: Score) -> bool
    ensures { result ≡ int_eq term (neg_ℤ infinity) }
{
    term.points == -INFINITY
}

fn is_plus(term: Score) -> bool
    ensures { result ≡ int_eq term infinity }
{
    term.points == INFINITY
}

/// What a term adds to a finite sum.
fn finite_points(term: Score) -> i32
    ensures { result ≡ finite_part term }
{
    if is_minus(term) || is_plus(term) {
        0
    } else {
        term.points
    }
}

impl Row {
    /// A row of nodes without terms. It asks for at most 256 nodes.
    pub fn zeros(alloc: Global, nodes: u32) -> Result<Row, NoMemory>
        requires { nodes ≤ 256 }
        ensures terms { IfOk result (λ row. Stands row (replicate nodes [])) }
        ensures nodes { IfOk result (λ row. length row ≡ nodes) }
        ensures finite { IfOk result (λ row. (n : ℕ) → finite_at row n ≡ pos 0) }
    {
        let count = nodes as usize;
        let minus = Vec::from_elem(alloc, 0, count)?;
        let plus = Vec::from_elem(alloc, 0, count)?;
        let sums = Vec::from_elem(alloc, BIAS, count)?;
        Ok(Row { minus, plus, sums })
    }

    /// Adds one term to those of a node. It asks for a node of the row, whose finite sum stays from -10^12 to 10^12.
    pub fn put(&mut self, node: u32, term: Score)
        requires node { node < length self.old }
        requires room { IsSumInRange (finite_at self.old node +ℤ finite_part term) }
        ensures terms { (terms : List (List ℤ)) → Stands self.old terms → Stands self.new (with_term terms node term) }
        ensures nodes { length self.new ≡ length self.old }
        ensures finite { finite_at self.new node ≡ (finite_at self.old node +ℤ finite_part term) }
        ensures others { (n : ℕ) → n ≢ node → finite_at self.new n ≡ finite_at self.old n }
    {
        let at = node as usize;
        flags::raise(&mut self.minus, at, is_minus(term));
        flags::raise(&mut self.plus, at, is_plus(term));
        sums::put(&mut self.sums, at, finite_points(term));
    }
}

/// Adds the terms of `other` to those of `into`, node by node.
fn add_terms(into: &mut Row, other: &Row, form: Form)
    requires nodes { length into.old ≡ length other.now }
    requires room { (n : ℕ) → n < length into.old → IsSumInRange (finite_at into.old n +ℤ finite_at other.now n) }
    ensures terms { (terms others : List (List ℤ)) → Stands into.old terms → Stands other.now others → Stands into.new (together terms others) }
    ensures nodes { length into.new ≡ length into.old }
    ensures finite { (n : ℕ) → n < length into.old → finite_at into.new n ≡ (finite_at into.old n +ℤ finite_at other.now n) }
{
    add::<Flags>(&mut into.minus, &other.minus, form);
    add::<Flags>(&mut into.plus, &other.plus, form);
    add::<Sums>(&mut into.sums, &other.sums, form);
}

/// Adds the terms of `other` to those of `into`, node by node, by lanes. It asks for rows of as many nodes, and that each finite sum stays from
/// -10^12 to 10^12.
pub fn add_row(into: &mut Row, other: &Row)
    requires nodes { length into.old ≡ length other.now }
    requires room { (n : ℕ) → n < length into.old → IsSumInRange (finite_at into.old n +ℤ finite_at other.now n) }
    ensures terms { (terms others : List (List ℤ)) → Stands into.old terms → Stands other.now others → Stands into.new (together terms others) }
    ensures nodes { length into.new ≡ length into.old }
    ensures finite { (n : ℕ) → n < length into.old → finite_at into.new n ≡ (finite_at into.old n +ℤ finite_at other.now n) }
{
    add_terms(into, other, Form::Lanes);
}

/// The plain form of `add_row`: node by node alone.
pub fn add_row_plain(into: &mut Row, other: &Row)
    requires nodes { length into.old ≡ length other.now }
    requires room { (n : ℕ) → n < length into.old → IsSumInRange (finite_at into.old n +ℤ finite_at other.now n) }
    ensures terms { (terms others : List (List ℤ)) → Stands into.old terms → Stands other.now others → Stands into.new (together terms others) }
    ensures nodes { length into.new ≡ length into.old }
    ensures finite { (n : ℕ) → n < length into.old → finite_at into.new n ≡ (finite_at into.old n +ℤ finite_at other.now n) }
{
    add_terms(into, other, Form::Plain);
}
