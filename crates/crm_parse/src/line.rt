//! The statement of one line.

ghost use Rattle.std.specs.Prelude.{◌≡◌, Result, Ok};
ghost use Rattle.faults.specs.Inner.Reading.{GivesInLine};
ghost use Rattle.crm_parse.specs.declared.fault.ParseCause.{ParseCause as Cause};
ghost use Rattle.crm_parse.specs.declared.form.Form.{Form as Said};
ghost use Rattle.crm_parse.specs.declared.form.Form.TheVariants as form;
ghost use Rattle.crm_parse.specs.Statements.{draft_after, draft_of, is_kept, is_unsupported, keyword_of, order, whole};

use crate::colocation::colocation_at;
use crate::draft::Draft;
use crate::drafts::Drafts;
use crate::fault::Stop;
use crate::group::{clone_at, group_at};
use crate::keyword::Keyword;
use crate::location::location_at;
use crate::node::node_at;
use crate::order::order_at;
use crate::primitive::primitive_at;
use crate::settings::settings_at;
use crate::{Form, ParseCause, SettingsWord};
use crm_lex::{Name, is};
use listed::Listed;
use std::alloc::Global;

fn is_kept(word: &[u8]) -> bool
    ensures { result ≡ is_kept word.now }
{
    is(word, b"fencing_topology")
        || is(word, b"alert")
        || is(word, b"user")
        || is(word, b"role")
        || is(word, b"acl_target")
        || is(word, b"acl_group")
}

fn is_unsupported(word: &[u8]) -> bool
    ensures { result ≡ is_unsupported word.now }
{
    is(word, b"rsc_template")
        || is(word, b"tag")
        || is(word, b"rsc_ticket")
        || is(word, b"bundle")
        || is(word, b"monitor")
        || is(word, b"xml")
}

#[tactic(auto, unfolding(crate::specs::Statements::keyword_of))]
fn keyword_of(word: &[u8]) -> Result<Keyword, ParseCause>
    ensures { result ≡ keyword_of word.now }
{
    if is(word, b"node") {
        Ok(Keyword::Node)
    } else if is(word, b"primitive") {
        Ok(Keyword::Primitive)
    } else if is(word, b"group") {
        Ok(Keyword::Group)
    } else if is(word, b"clone") {
        Ok(Keyword::Clone)
    } else if is(word, b"ms") || is(word, b"master") {
        Ok(Keyword::Ms)
    } else if is(word, b"location") {
        Ok(Keyword::Location)
    } else if is(word, b"colocation") || is(word, b"collocation") {
        Ok(Keyword::Colocation)
    } else if is(word, b"order") {
        Ok(Keyword::Order)
    } else if is(word, b"property") {
        Ok(Keyword::Settings(SettingsWord::Property))
    } else if is(word, b"rsc_defaults") {
        Ok(Keyword::Settings(SettingsWord::RscDefaults))
    } else if is(word, b"op_defaults") {
        Ok(Keyword::Settings(SettingsWord::OpDefaults))
    } else if is_kept(word) {
        Ok(Keyword::Kept)
    } else if is_unsupported(word) {
        Err(ParseCause::Unsupported)
    } else {
        Err(ParseCause::UnknownStatement)
    }
}

fn copies(alloc: Global, words: &[Name]) -> Result<Listed<Name>, Stop>
    ensures { GivesInLine (λ copies. copies) result (Ok words.now) }
{
    let mut copies = Listed::new(alloc);
    for word in words {
        copies.push(Name::from_bytes(alloc, word.bytes())?)?;
    }
    Ok(copies)
}

fn kept(alloc: Global, line: &[Name]) -> Result<Draft, Stop>
    ensures { GivesInLine (λ draft. draft) result (whole (Ok (form.Kept line.now))) }
{
    Ok(Draft::Whole(Form::Kept {
        words: copies(alloc, line)?,
    }))
}

fn order(alloc: Global, words: &[Name]) -> Result<Draft, Stop>
    ensures { GivesInLine (λ draft. draft) result (order words.now) }
{
    Ok(Draft::Order(order_at(alloc, words)?))
}

/// A statement that its own line tells whole.
fn whole(form: Result<Form, Stop>) -> Result<Draft, Stop>
    ensures { (read : Result Said Cause) → GivesInLine (λ form. form) form read → GivesInLine (λ draft. draft) result (whole read) }
{
    Ok(Draft::Whole(form?))
}

fn draft_after(
    alloc: Global,
    keyword: Keyword,
    before: &Drafts,
    line: &[Name],
    words: &[Name],
) -> Result<Draft, Stop>
    ensures { GivesInLine (λ draft. draft) result (draft_after keyword before.now line.now words.now) }
{
    match keyword {
        Keyword::Node => whole(node_at(alloc, words)),
        Keyword::Primitive => whole(primitive_at(alloc, words)),
        Keyword::Group => whole(group_at(alloc, words)),
        Keyword::Clone => whole(clone_at(alloc, false, words)),
        Keyword::Ms => whole(clone_at(alloc, true, words)),
        Keyword::Location => whole(location_at(alloc, words)),
        Keyword::Colocation => whole(colocation_at(alloc, words)),
        Keyword::Order => order(alloc, words),
        Keyword::Settings(what) => whole(settings_at(alloc, what, before, words)),
        Keyword::Kept => kept(alloc, line),
    }
}

/// Reads the words of a line, which stands after some statements.
#[tactic(auto, unfolding(crate::specs::Statements::draft_of))]
pub fn draft_of(alloc: Global, before: &Drafts, line: &[Name]) -> Result<Draft, Stop>
    ensures { GivesInLine (λ draft. draft) result (draft_of before.now line.now) }
{
    let [word, words @ ..] = line else {
        return Err(Stop::Cause(ParseCause::UnknownStatement));
    };
    let keyword = keyword_of(word.bytes())?;
    draft_after(alloc, keyword, before, line, words)
}
