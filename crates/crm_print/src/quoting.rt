//! Words, with quotes where they need them.

ghost use Rattle.std.specs.Prelude.{◌≡◌, ◌++◌, ◌∷◌, [], OnOk};
ghost use Rattle.std.specs.List.{flat_map, list_any};
ghost use Rattle.crm_print.specs.Quoting.{begins_with_hash, escaped, is_plain, needs_quotes, quoted};

use crm_lex::NoMemory;

fn needs_quotes(byte: u8) -> bool
    ensures { result ≡ needs_quotes byte }
{
    byte == b'\t' || byte == b' ' || byte == b'"' || byte == b'\'' || byte == b'\\'
}

fn begins_with_hash(word: &[u8]) -> bool
    ensures { result ≡ begins_with_hash word.now }
{
    match word {
        [first, ..] => *first == b'#',
        [] => false,
    }
}

fn any_needs_quotes(word: &[u8]) -> bool
    ensures { result ≡ list_any needs_quotes word.now }
{
    word.iter().any(|byte| needs_quotes(*byte))
}

/// Whether the word is written as it is.
#[tactic(auto, unfolding(crate::specs::Quoting::is_plain))]
fn is_plain(word: &[u8]) -> bool
    ensures { result ≡ is_plain word.now }
{
    !word.is_empty() && !begins_with_hash(word) && !any_needs_quotes(word)
}

pub(crate) fn push_byte(text: &mut Vec<u8>, byte: u8) -> Result<(), NoMemory>
    ensures { OnOk result (text.new.items ≡ text.old.items ++ byte ∷ []) }
{
    Ok(text.push(byte)?)
}

fn push_escaped(text: &mut Vec<u8>, byte: u8) -> Result<(), NoMemory>
    ensures { OnOk result (text.new.items ≡ text.old.items ++ escaped byte) }
{
    if byte == b'"' || byte == b'\\' {
        push_byte(text, b'\\')?;
    }
    push_byte(text, byte)
}

fn push_between_quotes(text: &mut Vec<u8>, word: &[u8]) -> Result<(), NoMemory>
    ensures { OnOk result (text.new.items ≡ text.old.items ++ flat_map escaped word.now) }
{
    for byte in word {
        push_escaped(text, *byte)?;
    }
    Ok(())
}

/// Writes a word as it is where it isn't empty, doesn't begin with `#`, and has no blank, quote or backslash, and else between double
/// quotes, with a backslash before each double quote and each backslash (rule of this project).
pub(crate) fn push_quoted(text: &mut Vec<u8>, word: &[u8]) -> Result<(), NoMemory>
    ensures { OnOk result (text.new.items ≡ text.old.items ++ quoted word.now) }
{
    if is_plain(word) {
        text.extend_from_slice(word)?;
    } else {
        push_byte(text, b'"')?;
        push_between_quotes(text, word)?;
        push_byte(text, b'"')?;
    }
    Ok(())
}
