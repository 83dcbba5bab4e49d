//! The canonical text of all statements.

ghost use Rattle.std.specs.Prelude.{◌≡◌, ◌++◌, IfOk, OnOk};
ghost use Rattle.crm_print.specs.Text.{canonical_text, ended_line};

use crate::quoting::push_byte;
use crate::statement::push_form;
use crm_lex::NoMemory;
use crm_parse::{Crm, Statement};
use std::alloc::Global;

fn push_statement(text: &mut Vec<u8>, statement: &Statement) -> Result<(), NoMemory>
    ensures { OnOk result (text.new.items ≡ text.old.items ++ ended_line statement.now) }
{
    push_form(text, &statement.form)?;
    push_byte(text, b'\n')
}

/// Writes the canonical text of a configuration (crmsh manual, `configure show`; the exact form is a rule of this project): a line for each
/// statement, in their order, with its words parted by one space and a line feed at its end.
///
/// Sections stand in the order description, params, meta, utilization, operations, op, and several sections of one kind are one. An order
/// has its kind, the action of each resource, and whether it is symmetrical. `NoMemory` comes when memory runs out.
pub fn print(alloc: Global, crm: &Crm) -> Result<Vec<u8>, NoMemory>
    ensures { IfOk result (λ text. text.items ≡ canonical_text crm.now) }
{
    let mut text = Vec::new(alloc);
    for statement in crm.statements.as_slice() {
        push_statement(&mut text, statement)?;
    }
    Ok(text)
}
