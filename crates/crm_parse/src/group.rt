//! `group ID MEMBER.. [description=TEXT]` and `clone ID CHILD [description=TEXT]`, and their sections

ghost use Rattle.std.specs.Prelude.{◌≡◌, []};
ghost use Rattle.crm_parse.specs.Groups.{clone_at, clone_owner, ends_members, group_at, members_from};
ghost use Rattle.faults.specs.Inner.Reading.{GivesInLine};

use crate::Form;
use crate::fault::Stop;
use crate::owner::Owner;
use crate::reading::{after, description_at, name_at, name_of};
use crate::section::{is_section, sections_at};
use crm_lex::Name;
use faults::with;
use listed::Listed;
use std::alloc::Global;

fn ends_members(word: &Name) -> bool
    ensures { result ≡ ends_members word.now }
{
    is_section(Owner::Group, word) || after(b"description=", word.bytes()).is_some()
}

/// The members of a group, up to its description or its first section.
fn members_at(alloc: Global, words: &[Name]) -> Result<(Listed<Name>, &[Name]), Stop>
    ensures { GivesInLine (λ read. (read.0, read.1.now)) result (members_from [] words.now) }
{
    let mut members = Listed::new(alloc);
    let mut rest = words;
    while let [word, after @ ..] = rest {
        if ends_members(word) {
            return Ok((members, rest));
        }
        let name = name_of(word.bytes())?;
        members.push(Name::from_bytes(alloc, name)?)?;
        rest = after;
    }
    Ok((members, rest))
}

/// Reads the words after `group`.
#[tactic(auto, unfolding(crate::specs::Groups::group_at))]
pub fn group_at(alloc: Global, words: &[Name]) -> Result<Form, Stop>
    ensures { GivesInLine (λ form. form) result (group_at words.now) }
{
    let (id, rest) = name_at(alloc, words)?;
    let (id, (members, rest)) = with(id, members_at(alloc, rest))?;
    let ((id, members), (description, rest)) = with((id, members), description_at(alloc, rest))?;
    let sections = sections_at(alloc, Owner::Group, rest);
    let ((id, members, description), sections) = with((id, members, description), sections)?;
    let (params, meta) = sections.into_pairs();
    Ok(Form::Group {
        id,
        members,
        description,
        params,
        meta,
    })
}

fn clone_owner(ms: bool) -> Owner
    ensures { result ≡ clone_owner ms }
{
    if ms { Owner::Ms } else { Owner::Clone }
}

/// Reads the words after `clone`, or after `ms` or `master`.
#[tactic(auto, unfolding(crate::specs::Groups::clone_at))]
pub fn clone_at(alloc: Global, ms: bool, words: &[Name]) -> Result<Form, Stop>
    ensures { GivesInLine (λ form. form) result (clone_at ms words.now) }
{
    let (id, rest) = name_at(alloc, words)?;
    let (id, (child, rest)) = with(id, name_at(alloc, rest))?;
    let ((id, child), (description, rest)) = with((id, child), description_at(alloc, rest))?;
    let sections = sections_at(alloc, clone_owner(ms), rest);
    let ((id, child, description), sections) = with((id, child, description), sections)?;
    let (params, meta) = sections.into_pairs();
    Ok(Form::Cloned {
        id,
        child,
        ms,
        description,
        params,
        meta,
    })
}
