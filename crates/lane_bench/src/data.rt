ghost use Rattle.std.specs.Prelude.{◌≡◌, ℕ, pos, ◌<◌, ◌≤◌, ◌+ℤ◌, true, length, IfOk};
ghost use Rattle.score.specs.NodeSet.{has};
ghost use Rattle.score.specs.Inner.SmallRows.{IsSmallRow};
ghost use Rattle.score.specs.Total.{IsScore};

use score::{NoMemory, NodeSet, Row, Score};
use std::alloc::Global;

/// How many nodes a row has.
pub const NODES: u32 = 256;

/// Some score of a node: one in sixteen is -INFINITY, one in sixteen INFINITY, and the others lie between -500 and 500.
pub fn score_of(node: u32, seed: u32) -> Score
    ensures { IsScore result }
{
    match (node ^ seed) % 16 {
        5 => Score { points: -1_000_000 },
        11 => Score { points: 1_000_000 },
        _ => Score {
            points: (node.wrapping_mul(7919).wrapping_add(seed) % 1001) as i32 - 500,
        },
    }
}

/// A row with one term a node.
pub fn row_of(alloc: Global, seed: u32) -> Result<Row, NoMemory>
    ensures nodes { IfOk result (λ row. length row ≡ NODES) }
    ensures small { IfOk result (IsSmallRow NODES) }
{
    let mut row = Row::zeros(alloc, NODES)?;
    for node in 0..NODES {
        row.put(node, score_of(node, seed));
    }
    Ok(row)
}

/// A score a node.
pub fn scores_of(seed: u32) -> [Score; 256] {
    let mut scores = [Score { points: 0 }; 256];
    for node in 0..NODES {
        scores[node as usize] = score_of(node, seed);
    }
    scores
}

/// The nodes but for every seventh.
pub fn most_nodes() -> NodeSet
    ensures { (n : ℕ) → has result n ≡ true → n < NODES }
{
    let mut set = NodeSet::none();
    for node in 0..NODES {
        if node % 7 != 3 {
            set.put(node);
        }
    }
    set
}

/// How far a score is above -INFINITY.
pub fn above_least(score: Score) -> u64
    ensures { pos result ≡ score +ℤ pos 1000000 }
{
    (score.points + 1_000_000) as u64
}

/// The sum of how far some scores are above -INFINITY.
pub fn sum_of(scores: &[Score]) -> u64 {
    let mut sum = 0u64;
    for score in scores {
        sum = sum.wrapping_add(above_least(*score));
    }
    sum
}
