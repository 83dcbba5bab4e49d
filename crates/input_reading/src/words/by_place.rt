ghost use Rattle.std.specs.Prelude.{◌≡◌, ℕ, List, slice_get};
ghost use Rattle.std.specs.Option.{option_copied};

use crm_lex::{Line, WordBuf};

/// The words of one line. A `WordBuf` has the first eight only, so with it `end_at` sees no ninth.
pub trait Words {
    /// The words, in order.
    ghost words: { Self → List (List ℕ) };

    /// The word at this place, counted from 0. None past the last.
    fn word(&self, place: usize) -> Option<&[u8]>
        ensures { option_copied result ≡ slice_get (words self.now) place };
}

impl Words for Line {
    ghost words = { λ line. line.words };

    fn word(&self, place: usize) -> Option<&[u8]> {
        let word = self.words.as_slice().get(place)?;
        Some(word.bytes())
    }
}

/// The words that a buffer kept: the first eight at most.
impl Words for WordBuf {
    ghost words = { λ buf. buf.first };

    fn word(&self, place: usize) -> Option<&[u8]> {
        WordBuf::word(self, place)
    }
}
