//! `colocation ID SCORE: RESOURCE[:ROLE] RESOURCE[:ROLE]`

ghost use Rattle.std.specs.Prelude.{◌≡◌};
ghost use Rattle.crm_parse.specs.Colocation.{before_colon, colocation_at, is_node_attribute, no_attribute, no_third, side_at, side_in, side_of, side_started};
ghost use Rattle.faults.specs.Inner.Reading.{GivesInLine};

use crate::fault::Stop;
use crate::reading::{
    after, begins_set, cut_at, is_name, name_at, resource_of, score_of, supported, word_at,
};
use crate::values::role_of;
use crate::{Form, ParseCause, RoleName, RoleWord, Side};
use crm_lex::Name;
use faults::{done, with};
use std::alloc::Global;

fn is_node_attribute(word: &[u8]) -> bool
    ensures { result ≡ is_node_attribute word.now }
{
    after(b"node-attribute=", word).is_some()
}

fn no_attribute(word: &[u8]) -> Result<(), ParseCause>
    ensures { result ≡ no_attribute word.now }
{
    if is_node_attribute(word) {
        Err(ParseCause::Unsupported)
    } else {
        Ok(())
    }
}

/// The resource and its role. What isn't supported comes before what isn't a name or a role.
#[tactic(auto, unfolding(crate::specs::Colocation::side_in))]
fn side_in(alloc: Global, word: &[u8], name: Option<RoleName>) -> Result<Side, Stop>
    ensures { GivesInLine (λ side. side) result (side_in word.now name) }
{
    let Some(name) = name else {
        resource_of(word)?;
        return Err(Stop::Cause(ParseCause::BadValue));
    };
    let role = supported(name)?;
    let resource = resource_of(word)?;
    Ok(Side {
        resource: Name::from_bytes(alloc, resource)?,
        role,
    })
}

#[tactic(auto, unfolding(crate::specs::Colocation::side_started))]
fn side_started(alloc: Global, word: &[u8]) -> Result<Side, Stop>
    ensures { GivesInLine (λ side. side) result (side_started word.now) }
{
    let resource = resource_of(word)?;
    Ok(Side {
        resource: Name::from_bytes(alloc, resource)?,
        role: RoleWord::Started,
    })
}

fn side_of(alloc: Global, word: &[u8]) -> Result<Side, Stop>
    ensures { GivesInLine (λ side. side) result (side_of word.now) }
{
    match cut_at(b':', word) {
        Some((resource, role)) => side_in(alloc, resource, role_of(role)),
        None => side_started(alloc, word),
    }
}

#[tactic(auto, unfolding(crate::specs::Colocation::side_at))]
fn side_at(alloc: Global, words: &[Name]) -> Result<(Side, &[Name]), Stop>
    ensures { GivesInLine (λ read. (read.0, read.1.now)) result (side_at words.now) }
{
    let (word, rest) = word_at(words)?;
    no_attribute(word.bytes())?;
    let side = side_of(alloc, word.bytes())?;
    Ok((side, rest))
}

fn before_colon(word: &[u8]) -> &[u8]
    ensures { result.now ≡ before_colon word.now }
{
    match cut_at(b':', word) {
        Some((front, _)) => front,
        None => word,
    }
}

fn no_third(words: &[Name]) -> Result<(), ParseCause>
    ensures { result ≡ no_third words.now }
{
    let [word, ..] = words else {
        return Ok(());
    };
    let word = word.bytes();
    if is_node_attribute(word) || begins_set(word) || is_name(before_colon(word)) {
        Err(ParseCause::Unsupported)
    } else {
        Err(ParseCause::ExtraWord)
    }
}

/// Reads the words after `colocation`.
#[tactic(auto, unfolding(crate::specs::Colocation::colocation_at))]
pub fn colocation_at(alloc: Global, words: &[Name]) -> Result<Form, Stop>
    ensures { GivesInLine (λ form. form) result (colocation_at words.now) }
{
    let (id, rest) = name_at(alloc, words)?;
    let (id, (word, rest)) = with(id, word_at(rest))?;
    let id = done(id, no_attribute(word.bytes()))?;
    let (id, score) = with(id, score_of(word.bytes()))?;
    let (id, (dependent, rest)) = with(id, side_at(alloc, rest))?;
    let ((id, dependent), (primary, rest)) = with((id, dependent), side_at(alloc, rest))?;
    let (id, dependent, primary) = done((id, dependent, primary), no_third(rest))?;
    Ok(Form::Colocation {
        id,
        score,
        dependent,
        primary,
    })
}
