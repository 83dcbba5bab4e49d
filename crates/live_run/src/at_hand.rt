//! Whether a result line is at hand.

ghost use Rattle.std.specs.Prelude.{◌≡◌, true};
ghost use Rattle.live_run.specs.AnswersAtHand.{HoldsResultLine};
ghost use Rattle.live_run.specs.Inner.PlainLines.{is_closed_line};

/// Whether a line end comes, and no backslash before the first one.
fn closes(bytes: &[u8]) -> bool
    ensures { result ≡ is_closed_line bytes.now }
{
    let mut left = bytes;
    while let Some((byte, more)) = left.split_first() {
        if *byte == b'\n' {
            return true;
        }
        if *byte == b'\\' {
            return false;
        }
        left = more;
    }
    false
}

/// Whether these bytes surely begin with a whole logical line that has words: it begins with a lowercase letter, and its first
/// physical line isn't joined to the next.
pub(crate) fn begins_result(bytes: &[u8]) -> bool
    ensures { result ≡ true → HoldsResultLine bytes.now }
{
    let Some((first, more)) = bytes.split_first() else {
        return false;
    };
    if *first < b'a' || *first > b'z' {
        return false;
    }
    closes(more)
}
