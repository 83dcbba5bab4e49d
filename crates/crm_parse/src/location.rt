//! `location ID RESOURCE [role=ROLE] [resource-discovery=always] SCORE: NODE`, and the same with rules in the place of a score and a node

ghost use Rattle.std.specs.Prelude.{◌≡◌};
ghost use Rattle.std.specs.Option.{option_copied};
ghost use Rattle.crm_parse.specs.Location.{begins_rule, discovery_at, discovery_in, location_at, place_at, plain_at, resource_at, role_at, ruled_at};
ghost use Rattle.faults.specs.Reading.{Reads};
ghost use Rattle.faults.specs.Inner.Reading.{GivesInLine};

use crate::fault::Stop;
use crate::reading::{end_at, name_at, prefixed_at, resource_of, score_of, word_at};
use crate::rule::{rules_at, some_role};
use crate::{Form, ParseCause, RoleWord};
use crm_lex::{Name, is};
use faults::{done, with};
use score::Score;
use std::alloc::Global;

#[tactic(auto, unfolding(crate::specs::Location::resource_at))]
fn resource_at(alloc: Global, words: &[Name]) -> Result<(Name, &[Name]), Stop>
    ensures { GivesInLine (λ read. (read.0, read.1.now)) result (resource_at words.now) }
{
    let (word, rest) = word_at(words)?;
    let resource = resource_of(word.bytes())?;
    Ok((Name::from_bytes(alloc, resource)?, rest))
}

#[tactic(auto, unfolding(crate::specs::Location::role_at))]
fn role_at(words: &[Name]) -> Result<(Option<RoleWord>, &[Name]), ParseCause>
    ensures { Reads (λ read. (read.0, read.1.now)) result (role_at words.now) }
{
    let (role, rest) = prefixed_at(b"role=", words);
    Ok((some_role(role)?, rest))
}

fn discovery_in(word: Option<&[u8]>) -> Result<bool, ParseCause>
    ensures { result ≡ discovery_in (option_copied word.entry) }
{
    match word {
        Some(word) => {
            if is(word, b"always") {
                Ok(true)
            } else {
                Err(ParseCause::Unsupported)
            }
        }
        None => Ok(false),
    }
}

#[tactic(auto, unfolding(crate::specs::Location::discovery_at))]
fn discovery_at(words: &[Name]) -> Result<(bool, &[Name]), ParseCause>
    ensures { Reads (λ read. (read.0, read.1.now)) result (discovery_at words.now) }
{
    let (discovery, rest) = prefixed_at(b"resource-discovery=", words);
    Ok((discovery_in(discovery)?, rest))
}

/// A score and a node.
#[tactic(auto, unfolding(crate::specs::Location::place_at))]
fn place_at(alloc: Global, words: &[Name]) -> Result<(Score, Name), Stop>
    ensures { GivesInLine (λ read. read) result (place_at words.now) }
{
    let (word, rest) = word_at(words)?;
    let score = score_of(word.bytes())?;
    let (node, rest) = name_at(alloc, rest)?;
    let node = done(node, end_at(rest))?;
    Ok((score, node))
}

fn begins_rule(words: &[Name]) -> bool
    ensures { result ≡ begins_rule words.now }
{
    match words {
        [word, ..] => is(word.bytes(), b"rule"),
        [] => false,
    }
}

#[tactic(auto, unfolding(crate::specs::Location::plain_at))]
fn plain_at(
    alloc: Global,
    id: Name,
    resource: Name,
    role: Option<RoleWord>,
    discovery: bool,
    words: &[Name],
) -> Result<Form, Stop>
    ensures { GivesInLine (λ form. form) result (plain_at id resource role discovery words.now) }
{
    let ((id, resource), (score, node)) = with((id, resource), place_at(alloc, words))?;
    Ok(Form::Location {
        id,
        resource,
        role,
        discovery,
        score,
        node,
    })
}

#[tactic(auto, unfolding(crate::specs::Location::ruled_at))]
fn ruled_at(
    alloc: Global,
    id: Name,
    resource: Name,
    role: Option<RoleWord>,
    discovery: bool,
    words: &[Name],
) -> Result<Form, Stop>
    ensures { GivesInLine (λ form. form) result (ruled_at id resource role discovery words.now) }
{
    let ((id, resource), rules) = with((id, resource), rules_at(alloc, words))?;
    Ok(Form::RuledLocation {
        id,
        resource,
        role,
        discovery,
        rules,
    })
}

/// Reads the words after `location`.
#[tactic(auto, unfolding(crate::specs::Location::location_at))]
pub fn location_at(alloc: Global, words: &[Name]) -> Result<Form, Stop>
    ensures { GivesInLine (λ form. form) result (location_at words.now) }
{
    let (id, rest) = name_at(alloc, words)?;
    let (id, (resource, rest)) = with(id, resource_at(alloc, rest))?;
    let ((id, resource), (role, rest)) = with((id, resource), role_at(rest))?;
    let ((id, resource), (discovery, rest)) = with((id, resource), discovery_at(rest))?;
    if begins_rule(rest) {
        ruled_at(alloc, id, resource, role, discovery, rest)
    } else {
        plain_at(alloc, id, resource, role, discovery, rest)
    }
}
