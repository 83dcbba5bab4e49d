//! `node [ID:] NAME [attributes KEY=VALUE..] [utilization KEY=VALUE..]`

ghost use Rattle.std.specs.Prelude.{◌≡◌};
ghost use Rattle.crm_parse.specs.Node.{node_statement_at};
ghost use Rattle.faults.specs.Inner.Reading.{GivesInLine};

use crate::Form;
use crate::fault::Stop;
use crate::owner::Owner;
use crate::reading::{given_at, name_at};
use crate::section::sections_at;
use crm_lex::Name;
use faults::with;
use std::alloc::Global;

/// Reads the words after `node`.
#[tactic(auto, unfolding(crate::specs::Node::node_statement_at))]
pub fn node_at(alloc: Global, words: &[Name]) -> Result<Form, Stop>
    ensures { GivesInLine (λ form. form) result (node_statement_at words.now) }
{
    let (id, rest) = given_at(alloc, words)?;
    let (id, (name, rest)) = with(id, name_at(alloc, rest))?;
    let sections = sections_at(alloc, Owner::Node, rest);
    let ((id, name), sections) = with((id, name), sections)?;
    Ok(Form::Node {
        id,
        name,
        attributes: sections.attributes.into_list(),
        utilization: sections.utilization.into_list(),
    })
}
