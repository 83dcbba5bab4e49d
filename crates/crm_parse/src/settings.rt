//! `property [SET-ID:] KEY=VALUE..`, and `rsc_defaults` and `op_defaults` alike

ghost use Rattle.std.specs.Prelude.{◌≡◌};
ghost use Rattle.faults.specs.Inner.Reading.{GivesInLine};
ghost use Rattle.crm_parse.specs.Settings.{begins_pair, is_pair, set_at, settings_at, settings_pairs, settings_place, with_setting, with_settings};

use crate::drafts::Drafts;
use crate::fault::Stop;
use crate::keyed_pairs::KeyedPairs;
use crate::pairs::kv_of;
use crate::place::Place;
use crate::reading::{cut_at, given_at};
use crate::{Form, Kv, ParseCause, SettingsWord};
use crm_lex::Name;
use listed::Listed;
use std::alloc::Global;

fn settings_place(what: SettingsWord) -> Place
    ensures { result ≡ settings_place what }
{
    match what {
        SettingsWord::Property => Place::Property,
        SettingsWord::RscDefaults => Place::LeafMeta,
        SettingsWord::OpDefaults => Place::OpDefaults,
    }
}

#[tactic(auto, unfolding(crate::specs::Settings::with_setting))]
fn add_setting(
    alloc: Global,
    what: SettingsWord,
    before: &Drafts,
    pairs: &mut KeyedPairs,
    word: &Name,
) -> Result<(), Stop>
    ensures { GivesInLine (λ _. pairs.new) result (with_setting what before.now pairs.old word.now) }
{
    let place = settings_place(what);
    let pair = kv_of(alloc, place, word)?;
    if pairs.repeats(place, &pair.key) || before.set_before(what, &pair.key) {
        return Err(Stop::Cause(ParseCause::RepeatedKey));
    }
    pairs.push(alloc, pair)?;
    Ok(())
}

fn add_settings(
    alloc: Global,
    what: SettingsWord,
    before: &Drafts,
    pairs: &mut KeyedPairs,
    words: &[Name],
) -> Result<(), Stop>
    ensures { GivesInLine (λ _. pairs.new) result (with_settings what before.now pairs.old words.now) }
{
    for word in words {
        add_setting(alloc, what, before, pairs, word)?;
    }
    Ok(())
}

/// The pairs of a statement, one or more.
fn settings_pairs(
    alloc: Global,
    what: SettingsWord,
    before: &Drafts,
    words: &[Name],
) -> Result<Listed<Kv>, Stop>
    ensures { GivesInLine (λ pairs. pairs) result (settings_pairs what before.now words.now) }
{
    if words.is_empty() {
        return Err(Stop::Cause(ParseCause::MissingWord));
    }
    let mut pairs = KeyedPairs::new(alloc);
    add_settings(alloc, what, before, &mut pairs, words)?;
    Ok(pairs.into_list())
}

fn is_pair(word: &[u8]) -> bool
    ensures { result ≡ is_pair word.now }
{
    match cut_at(b'=', word) {
        Some((key, _)) => !key.is_empty(),
        None => false,
    }
}

fn begins_pair(words: &[Name]) -> bool
    ensures { result ≡ begins_pair words.now }
{
    match words {
        [word, ..] => is_pair(word.bytes()),
        [] => false,
    }
}

/// The id of the set, where one is written. A pair is none, though it ends in a colon.
fn set_at(alloc: Global, words: &[Name]) -> Result<(Option<Name>, &[Name]), Stop>
    ensures { GivesInLine (λ read. (read.0, read.1.now)) result (set_at words.now) }
{
    if begins_pair(words) {
        Ok((None, words))
    } else {
        given_at(alloc, words)
    }
}

/// Reads the words after the first of a statement of settings, which stands after some statements.
#[tactic(auto, unfolding(crate::specs::Settings::settings_at))]
pub fn settings_at(
    alloc: Global,
    what: SettingsWord,
    before: &Drafts,
    words: &[Name],
) -> Result<Form, Stop>
    ensures { GivesInLine (λ form. form) result (settings_at what before.now words.now) }
{
    let (set, rest) = set_at(alloc, words)?;
    let pairs = settings_pairs(alloc, what, before, rest)?;
    Ok(Form::Settings { what, set, pairs })
}
