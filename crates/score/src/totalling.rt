ghost use Rattle.std.specs.Prelude.{◌≡◌, ◌≤◌, length};
ghost use Rattle.score.specs.Total.{cut, has_points, sum_of, total_of};

use crate::points::Score;

/// Whether one of the terms is this score.
fn has(terms: &[Score], score: Score) -> bool
    ensures { result ≡ has_points score terms.now }
{
    terms.contains(&score)
}

fn exact_sum(terms: &[Score]) -> i64
    requires { length terms.now ≤ 1000000 }
    ensures { result ≡ sum_of terms.now }
{
    let mut sum = 0;
    for term in terms {
        sum += i64::from(term.points);
    }
    sum
}

/// The score of a sum of points, cut at -INFINITY and INFINITY.
pub fn cut(sum: i64) -> Score
    ensures { result ≡ cut sum }
{
    let least = i64::from(Score::MINUS_INFINITY.points);
    let most = i64::from(Score::INFINITY.points);
    Score {
        points: sum.clamp(least, most) as i32,
    }
}

/// The total of a list of scores, of up to 1,000,000 terms: -INFINITY if one of them is, else INFINITY if one of them is, else their
/// sum, cut at -INFINITY and INFINITY. The sum is cut once, at the end, so that the order of the terms does not matter.
pub fn total(terms: &[Score]) -> Score
    requires { length terms.now ≤ 1000000 }
    ensures { result ≡ total_of terms.now }
{
    if has(terms, Score::MINUS_INFINITY) {
        Score::MINUS_INFINITY
    } else if has(terms, Score::INFINITY) {
        Score::INFINITY
    } else {
        cut(exact_sum(terms))
    }
}
