//! The items of a line, each behind a blank.

ghost use Rattle.std.specs.Prelude.{◌≡◌, ◌++◌, ◌∷◌, [], OnOk, codes, map};
ghost use Rattle.std.specs.List.{flat_map};
ghost use Rattle.crm_print.specs.Quoting.{spaced};
ghost use Rattle.crm_print.specs.Items.{given_id, labelled, noted, noted_role, operation_items, pair, section, with_colon, word};

use crate::keyword::role_text;
use crate::quoting::{push_byte, push_quoted};
use crm_lex::{Name, NoMemory};
use crm_parse::{Kv, Operation, RoleWord};

pub(crate) fn push_word(text: &mut Vec<u8>, bytes: &[u8]) -> Result<(), NoMemory>
    ensures { OnOk result (text.new.items ≡ text.old.items ++ spaced (word bytes.now)) }
{
    push_byte(text, b' ')?;
    push_quoted(text, bytes)
}

pub(crate) fn push_labelled(text: &mut Vec<u8>, label: &[u8], bytes: &[u8]) -> Result<(), NoMemory>
    ensures { OnOk result (text.new.items ≡ text.old.items ++ spaced (labelled label.now bytes.now)) }
{
    push_byte(text, b' ')?;
    push_quoted(text, label)?;
    push_quoted(text, bytes)
}

pub(crate) fn push_with_colon(text: &mut Vec<u8>, bytes: &[u8]) -> Result<(), NoMemory>
    ensures { OnOk result (text.new.items ≡ text.old.items ++ spaced (with_colon bytes.now)) }
{
    push_byte(text, b' ')?;
    push_quoted(text, bytes)?;
    push_quoted(text, b":")
}

fn push_pair(text: &mut Vec<u8>, kv: &Kv) -> Result<(), NoMemory>
    ensures { OnOk result (text.new.items ≡ text.old.items ++ spaced (pair kv.now)) }
{
    push_byte(text, b' ')?;
    push_quoted(text, kv.key.bytes())?;
    push_quoted(text, b"=")?;
    push_quoted(text, kv.value.bytes())
}

pub(crate) fn push_words(text: &mut Vec<u8>, words: &[Name]) -> Result<(), NoMemory>
    ensures { OnOk result (text.new.items ≡ text.old.items ++ flat_map spaced (map word words.now)) }
{
    for name in words {
        push_word(text, name.bytes())?;
    }
    Ok(())
}

pub(crate) fn push_pairs(text: &mut Vec<u8>, pairs: &[Kv]) -> Result<(), NoMemory>
    ensures { OnOk result (text.new.items ≡ text.old.items ++ flat_map spaced (map pair pairs.now)) }
{
    for kv in pairs {
        push_pair(text, kv)?;
    }
    Ok(())
}

pub(crate) fn push_section(text: &mut Vec<u8>, name: &[u8], pairs: &[Kv]) -> Result<(), NoMemory>
    ensures { OnOk result (text.new.items ≡ text.old.items ++ flat_map spaced (section name.now pairs.now)) }
{
    if !pairs.is_empty() {
        push_word(text, name)?;
        push_pairs(text, pairs)?;
    }
    Ok(())
}

fn push_operation(text: &mut Vec<u8>, op: &Operation) -> Result<(), NoMemory>
    ensures { OnOk result (text.new.items ≡ text.old.items ++ flat_map spaced (operation_items op.now)) }
{
    push_word(text, b"op")?;
    push_word(text, op.name.bytes())?;
    push_pairs(text, op.pairs.as_slice())
}

pub(crate) fn push_operations(text: &mut Vec<u8>, ops: &[Operation]) -> Result<(), NoMemory>
    ensures { OnOk result (text.new.items ≡ text.old.items ++ flat_map spaced (flat_map operation_items ops.now)) }
{
    for op in ops {
        push_operation(text, op)?;
    }
    Ok(())
}

/// An id before its colon, where there is one.
pub(crate) fn push_given(text: &mut Vec<u8>, id: &Option<Name>) -> Result<(), NoMemory>
    ensures { OnOk result (text.new.items ≡ text.old.items ++ flat_map spaced (given_id id.now)) }
{
    match id {
        Some(id) => push_with_colon(text, id.bytes()),
        None => Ok(()),
    }
}

/// A text behind its label, where there is one.
pub(crate) fn push_noted(
    text: &mut Vec<u8>,
    label: &[u8],
    said: &Option<Name>,
) -> Result<(), NoMemory>
    ensures { OnOk result (text.new.items ≡ text.old.items ++ flat_map spaced (noted label.now said.now)) }
{
    match said {
        Some(said) => push_labelled(text, label, said.bytes()),
        None => Ok(()),
    }
}

/// A role behind its label, where there is one.
pub(crate) fn push_noted_role(
    text: &mut Vec<u8>,
    label: &[u8],
    role: Option<RoleWord>,
) -> Result<(), NoMemory>
    ensures { OnOk result (text.new.items ≡ text.old.items ++ flat_map spaced (noted_role label.now role)) }
{
    match role {
        Some(role) => push_labelled(text, label, role_text(role)),
        None => Ok(()),
    }
}
