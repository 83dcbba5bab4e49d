//! `primitive ID AGENT [description=TEXT]`, and its sections

ghost use Rattle.std.specs.Prelude.{◌≡◌, ◌==◌, length, not, Ok};
ghost use Rattle.std.specs.List.{list_all};
ghost use Rattle.crm_parse.specs.declared.form.Form.TheVariants as form;
ghost use Rattle.crm_parse.specs.Primitive.{agent_of, colon_parts, is_agent, is_template, primitive_at, whole_agent};
ghost use Rattle.faults.specs.Inner.Reading.{GivesInLine};

use crate::fault::Stop;
use crate::owner::Owner;
use crate::reading::{description_at, name_at, word_at};
use crate::section::{Sections, sections_at};
use crate::{Form, ParseCause};
use crm_lex::Name;
use faults::with;
use std::alloc::Global;

fn count_parts(word: &[u8]) -> usize
    ensures { result ≡ length (colon_parts word.now) }
{
    word.split(|byte| *byte == b':').count()
}

fn has_no_empty_part(word: &[u8]) -> bool
    ensures { result ≡ list_all (λ part. not (length part == 0)) (colon_parts word.now) }
{
    word.split(|byte| *byte == b':')
        .all(|part| !part.is_empty())
}

fn is_agent(word: &[u8]) -> bool
    ensures { result ≡ is_agent word.now }
{
    count_parts(word) <= 3 && has_no_empty_part(word)
}

/// An agent with all its parts.
fn whole_agent(alloc: Global, word: &[u8]) -> Result<Name, Stop>
    ensures { GivesInLine (λ agent. agent) result (Ok (whole_agent word.now)) }
{
    if count_parts(word) != 1 {
        return Ok(Name::from_bytes(alloc, word)?);
    }
    let mut bytes = Vec::from_slice(alloc, b"ocf:heartbeat:")?;
    bytes.extend_from_slice(word)?;
    Ok(Name::from_bytes(alloc, bytes.as_slice())?)
}

fn is_template(word: &[u8]) -> bool
    ensures { result ≡ is_template word.now }
{
    match word {
        [first, ..] => *first == b'@',
        [] => false,
    }
}

fn agent_of(alloc: Global, word: &[u8]) -> Result<Name, Stop>
    ensures { GivesInLine (λ agent. agent) result (agent_of word.now) }
{
    if is_template(word) {
        Err(Stop::Cause(ParseCause::Unsupported))
    } else if is_agent(word) {
        whole_agent(alloc, word)
    } else {
        Err(Stop::Cause(ParseCause::BadValue))
    }
}

fn primitive(id: Name, agent: Name, description: Option<Name>, sections: Sections) -> Form
    ensures { result ≡ form.Primitive id agent description sections.params sections.meta sections.utilization sections.operations sections.ops }
{
    Form::Primitive {
        id,
        agent,
        description,
        params: sections.params.into_list(),
        meta: sections.meta.into_list(),
        utilization: sections.utilization.into_list(),
        operations: sections.operations.into_list(),
        ops: sections.ops,
    }
}

/// Reads the words after `primitive`.
#[tactic(auto, unfolding(crate::specs::Primitive::primitive_at))]
pub fn primitive_at(alloc: Global, words: &[Name]) -> Result<Form, Stop>
    ensures { GivesInLine (λ form. form) result (primitive_at words.now) }
{
    let (id, rest) = name_at(alloc, words)?;
    let (id, (word, rest)) = with(id, word_at(rest))?;
    let (id, agent) = with(id, agent_of(alloc, word.bytes()))?;
    let ((id, agent), (description, rest)) = with((id, agent), description_at(alloc, rest))?;
    let sections = sections_at(alloc, Owner::Primitive, rest);
    let ((id, agent, description), sections) = with((id, agent, description), sections)?;
    Ok(primitive(id, agent, description, sections))
}
