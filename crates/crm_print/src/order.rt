//! Colocations and orders.

ghost use Rattle.std.specs.Prelude.{◌≡◌, ◌++◌, ◌∷◌, [], OnOk, codes, map};
ghost use Rattle.std.specs.List.{flat_map};
ghost use Rattle.crm_print.specs.Quoting.{spaced};
ghost use Rattle.crm_print.specs.Items.{in_role, parted, side, step};

use crate::item::push_word;
use crate::keyword::action_text;
use crate::quoting::{push_byte, push_quoted};
use crm_lex::NoMemory;
use crm_parse::{OrderStep, RoleWord, Side};

/// Two texts with a colon between them.
fn push_parted(text: &mut Vec<u8>, first: &[u8], second: &[u8]) -> Result<(), NoMemory>
    ensures { OnOk result (text.new.items ≡ text.old.items ++ spaced (parted first.now second.now)) }
{
    push_byte(text, b' ')?;
    push_quoted(text, first)?;
    push_quoted(text, b":")?;
    push_quoted(text, second)
}

/// A resource in a role; the role Started isn't written.
fn push_in_role(text: &mut Vec<u8>, resource: &[u8], role: RoleWord) -> Result<(), NoMemory>
    ensures { OnOk result (text.new.items ≡ text.old.items ++ spaced (in_role resource.now role)) }
{
    match role {
        RoleWord::Started => push_word(text, resource),
        RoleWord::Promoted => push_parted(text, resource, b"Promoted"),
    }
}

/// A side of a colocation.
pub(crate) fn push_side(text: &mut Vec<u8>, who: &Side) -> Result<(), NoMemory>
    ensures { OnOk result (text.new.items ≡ text.old.items ++ spaced (side who.now)) }
{
    push_in_role(text, who.resource.bytes(), who.role)
}

fn push_step(text: &mut Vec<u8>, done: &OrderStep) -> Result<(), NoMemory>
    ensures { OnOk result (text.new.items ≡ text.old.items ++ spaced (step done.now)) }
{
    push_parted(text, done.resource.bytes(), action_text(done.action))
}

pub(crate) fn push_steps(text: &mut Vec<u8>, steps: &[OrderStep]) -> Result<(), NoMemory>
    ensures { OnOk result (text.new.items ≡ text.old.items ++ flat_map spaced (map step steps.now)) }
{
    for step in steps {
        push_step(text, step)?;
    }
    Ok(())
}
