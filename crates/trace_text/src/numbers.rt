//! Numbers.

ghost use Rattle.std.specs.Prelude.{◌≡◌, ◌++◌, codes, decimal, OnOk};

use crate::line_text::LineText;
use faults::NoMemory;
use itoa::Buffer;

/// A number in decimal, without leading zeros.
pub(crate) fn put_number<T: LineText>(text: &mut T, number: u64) -> Result<(), T::Error>
    ensures { OnOk result (T.kept text.new ≡ T.more (T.kept text.old) (decimal number)) }
{
    let mut buffer = Buffer::new();
    text.put(buffer.format(number).as_bytes())
}

/// A word, and a number.
pub(crate) fn put_numbered<T: LineText>(
    text: &mut T,
    word: &[u8],
    number: u64,
) -> Result<(), T::Error>
    ensures { OnOk result (T.kept text.new ≡ T.more (T.kept text.old) (word.now ++ decimal number)) }
{
    text.put(word)?;
    put_number(text, number)
}

/// A word, a number and the end of the line.
pub(crate) fn put_number_line<T: LineText>(
    text: &mut T,
    word: &[u8],
    number: u32,
) -> Result<(), T::Error>
    ensures { OnOk result (T.kept text.new ≡ T.more (T.kept text.old) (word.now ++ decimal number ++ codes "\n")) }
{
    put_numbered(text, word, number as u64)?;
    text.put(b"\n")
}

/// Adds a number in decimal, without leading zeros. `NoMemory` comes when memory runs out.
pub fn push_number(text: &mut Vec<u8>, number: u32) -> Result<(), NoMemory>
    ensures { OnOk result (text.new.items ≡ text.old.items ++ decimal number) }
{
    put_number(text, number as u64)
}
