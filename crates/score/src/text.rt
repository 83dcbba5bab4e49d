ghost use Rattle.std.specs.Prelude.{◌≡◌, ◌≤◌, length, take, drop, neg_ℤ};
ghost use Rattle.std.specs.Str.Parse.{starts_with_minus, without_leading_sign};
ghost use Rattle.score.specs.ScoreText.{is_infinity, read_points, read_score, score_text};

use crate::points::Score;
use faults::number_up_to;
use itoa::Buffer;

fn is_infinity(word: &[u8]) -> bool
    ensures { result ≡ is_infinity word.now }
{
    word.eq_ignore_ascii_case(b"inf") || word.eq_ignore_ascii_case(b"infinity")
}

/// The score that a word without a sign stands for.
fn score_of_word(word: &[u8]) -> Option<Score>
    ensures { result ≡ read_points word.now }
{
    match number_up_to(4_294_967_295, word) {
        Some(number) => Some(Score {
            points: number.min(1_000_000) as i32,
        }),
        None if is_infinity(word) => Some(Score::INFINITY),
        None => None,
    }
}

fn has_minus(text: &[u8]) -> bool
    ensures { result ≡ starts_with_minus text.now }
{
    matches!(text, [b'-', ..])
}

fn without_sign(text: &[u8]) -> &[u8]
    ensures { result.now ≡ without_leading_sign text.now }
{
    match text {
        [b'+' | b'-', word @ ..] => word,
        _ => text,
    }
}

/// Puts the text at the front of the buffer, and gives its length.
fn put(buf: &mut [u8; 12], text: &[u8]) -> usize
    requires { length text.now ≤ 12 }
    ensures length { result ≡ length text.now }
    ensures front { take result buf.new ≡ text.now }
    ensures rest { drop result buf.new ≡ drop result buf.old }
{
    buf[..text.len()].copy_from_slice(text);
    text.len()
}

impl Score {
    fn opposite(self) -> Score
        ensures { result ≡ neg_ℤ self }
    {
        Score {
            points: -self.points,
        }
    }

    /// Reads a score: `inf`, `infinity` or a number of up to 4,294,967,295 in decimal digits, each with or without a sign. ASCII case
    /// does not matter, leading zeros are allowed, and a number above 1,000,000 stands for 1,000,000. None at any other text.
    pub fn from_text(text: &[u8]) -> Option<Score>
        ensures { result ≡ read_score text.now }
    {
        let score = score_of_word(without_sign(text))?;
        if has_minus(text) {
            Some(score.opposite())
        } else {
            Some(score)
        }
    }

    /// Writes the score at the front of the buffer, as `INFINITY`, `-INFINITY` or a decimal number, and gives the number of bytes
    /// written.
    pub fn write_to(self, buf: &mut [u8; 12]) -> usize
        ensures length { result ≤ 12 }
        ensures text { take result buf.new ≡ score_text self }
        ensures rest { drop result buf.new ≡ drop result buf.old }
    {
        if self == Score::INFINITY {
            return put(buf, b"INFINITY");
        }
        if self == Score::MINUS_INFINITY {
            return put(buf, b"-INFINITY");
        }
        let mut digits = Buffer::new();
        put(buf, digits.format(self.points).as_bytes())
    }
}
