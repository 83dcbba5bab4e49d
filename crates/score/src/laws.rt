//! Laws of the definitions. Each is a function that does nothing, and whose contract is the law.

ghost use Rattle.std.specs.Prelude.{◌≡◌, ◌≤ℤ◌, ℤ, List, [], ◌∷◌, Some};
ghost use Rattle.std.specs.List.Sorted.{IsPermutation};
ghost use Rattle.score.specs.ScoreText.{read_score, score_text};
ghost use Rattle.score.specs.Total.{IsScore, infinity, minus_infinity, total_of};

/// What is written for a score is read as the same score.
pub fn written_reads_back()
    ensures { (score : ℤ) → IsScore score → read_score (score_text score) ≡ Some score }
{}

/// A total does not depend on the order of its terms.
pub fn total_in_any_order()
    ensures { (terms others : List ℤ) → IsPermutation terms others → total_of terms ≡ total_of others }
{}

/// A total is a score.
pub fn total_within()
    ensures least { (terms : List ℤ) → minus_infinity ≤ℤ total_of terms }
    ensures most { (terms : List ℤ) → total_of terms ≤ℤ infinity }
{}

/// The total of one term is that term.
pub fn total_of_one()
    ensures { (score : ℤ) → IsScore score → total_of (score ∷ []) ≡ score }
{}
