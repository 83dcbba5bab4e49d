//! How the words of a statement are read, from the left.

ghost use Rattle.std.specs.Prelude.{◌≡◌, ◌<◌, length, option_map, IfOk, IfSome, Ok};
ghost use Rattle.std.specs.List.{list_all, position_or_len};
ghost use Rattle.std.specs.Option.{option_copied};
ghost use Rattle.crm_lex.specs.Names.{is_name, is_name_byte};
ghost use Rattle.crm_parse.specs.Reading.{begins_set, colon_at, description_at, end_at, given_at, name_at, name_of, prefixed_at, resource_of, rule_role_of, score_of, some_name, supported, next_word_in};
ghost use Rattle.faults.specs.Reading.{Reads};
ghost use Rattle.faults.specs.Inner.Reading.{GivesInLine};
ghost use Rattle.crm_parse.specs.Texts.{after, before, cut_at, byte_place};

use crate::fault::Stop;
use crate::values::role_of;
use crate::{ParseCause, RoleName, RoleWord};
use crm_lex::Name;
use score::Score;
use std::alloc::Global;

/// The most bytes of a name.
const LONGEST_NAME: usize = 256;

/// What stands after a text with which the word begins.
pub fn after<'a>(text: &[u8], word: &'a [u8]) -> Option<&'a [u8]>
    ensures { option_copied result ≡ after text.now word.now }
{
    word.strip_prefix(text)
}

/// What stands before a text in which the word ends.
pub fn before<'a>(text: &[u8], word: &'a [u8]) -> Option<&'a [u8]>
    ensures { option_copied result ≡ before text.now word.now }
{
    word.strip_suffix(text)
}

/// Where the first such byte of the word is.
pub fn place_of(byte: u8, word: &[u8]) -> Option<usize>
    ensures value { result ≡ byte_place byte word.now }
    ensures within { IfSome result (λ place. place < length word.now) }
{
    word.iter().position(|each| *each == byte)
}

/// What stands before and after the first such byte of the word.
pub fn cut_at(byte: u8, word: &[u8]) -> Option<(&[u8], &[u8])>
    ensures { option_map (λ parts. (parts.0.now, parts.1.now)) result ≡ cut_at byte word.now }
{
    let place = place_of(byte, word)?;
    let (front, _) = word.split_at(place);
    let (_, rest) = word.split_at(place + 1);
    Some((front, rest))
}

fn is_name_byte(byte: u8) -> bool
    ensures { result ≡ is_name_byte byte }
{
    byte >= b'a' && byte <= b'z'
        || byte >= b'A' && byte <= b'Z'
        || byte >= b'0' && byte <= b'9'
        || byte == b'_'
        || byte == b'-'
        || byte == b'.'
}

fn are_name_bytes(bytes: &[u8]) -> bool
    ensures { result ≡ list_all is_name_byte bytes.now }
{
    bytes.iter().all(|byte| is_name_byte(*byte))
}

/// Whether the word may name a node, a resource or a rule: 1 to 256 ASCII letters, digits, `_`, `-` and `.`.
pub fn is_name(word: &[u8]) -> bool
    ensures { result ≡ is_name word.now }
{
    !word.is_empty() && word.len() <= LONGEST_NAME && are_name_bytes(word)
}

pub fn word_at(words: &[Name]) -> Result<(&Name, &[Name]), ParseCause>
    ensures read { Reads (λ read. (read.0.now, read.1.now)) result (next_word_in words.now) }
    ensures shorter { IfOk result (λ read. length read.1.now < length words.now) }
{
    match words {
        [word, rest @ ..] => Ok((word, rest)),
        [] => Err(ParseCause::MissingWord),
    }
}

pub fn name_of(word: &[u8]) -> Result<&[u8], ParseCause>
    ensures { Reads (λ name. name.now) result (name_of word.now) }
{
    if is_name(word) {
        Ok(word)
    } else {
        Err(ParseCause::BadValue)
    }
}

/// Copies the next word, which is a name.
#[tactic(auto, unfolding(crate::specs::Reading::name_at))]
pub fn name_at(alloc: Global, words: &[Name]) -> Result<(Name, &[Name]), Stop>
    ensures { GivesInLine (λ read. (read.0, read.1.now)) result (name_at words.now) }
{
    let (word, rest) = word_at(words)?;
    let name = name_of(word.bytes())?;
    Ok((Name::from_bytes(alloc, name)?, rest))
}

pub fn end_at(words: &[Name]) -> Result<(), ParseCause>
    ensures { result ≡ end_at words.now }
{
    if words.is_empty() {
        Ok(())
    } else {
        Err(ParseCause::ExtraWord)
    }
}

/// What stands after a text in the next word, where that begins with the text.
pub fn prefixed_at<'a>(text: &[u8], words: &'a [Name]) -> (Option<&'a [u8]>, &'a [Name])
    ensures { (option_copied result.0, result.1.now) ≡ prefixed_at text.now words.now }
{
    let [word, rest @ ..] = words else {
        return (None, words);
    };
    match after(text, word.bytes()) {
        Some(value) => (Some(value), rest),
        None => (None, words),
    }
}

/// The next word without its colon, where it ends in one.
pub fn colon_at(words: &[Name]) -> (Option<&[u8]>, &[Name])
    ensures { (option_copied result.0, result.1.now) ≡ colon_at words.now }
{
    let [word, rest @ ..] = words else {
        return (None, words);
    };
    match before(b":", word.bytes()) {
        Some(text) => (Some(text), rest),
        None => (None, words),
    }
}

/// Copies a text where there is one.
pub fn copied(alloc: Global, text: Option<&[u8]>) -> Result<Option<Name>, Stop>
    ensures { GivesInLine (λ name. name) result (Ok (option_copied text.entry)) }
{
    match text {
        Some(text) => Ok(Some(Name::from_bytes(alloc, text)?)),
        None => Ok(None),
    }
}

/// Copies a name where one was written.
pub fn some_name(alloc: Global, word: Option<&[u8]>) -> Result<Option<Name>, Stop>
    ensures { GivesInLine (λ name. name) result (some_name (option_copied word.entry)) }
{
    match word {
        Some(word) => {
            let name = name_of(word)?;
            Ok(Some(Name::from_bytes(alloc, name)?))
        }
        None => Ok(None),
    }
}

/// An id before its colon, where one is written.
#[tactic(auto, unfolding(crate::specs::Reading::given_at))]
pub fn given_at(alloc: Global, words: &[Name]) -> Result<(Option<Name>, &[Name]), Stop>
    ensures { GivesInLine (λ read. (read.0, read.1.now)) result (given_at words.now) }
{
    let (id, rest) = colon_at(words);
    Ok((some_name(alloc, id)?, rest))
}

/// A description, where one is written.
pub fn description_at(alloc: Global, words: &[Name]) -> Result<(Option<Name>, &[Name]), Stop>
    ensures { GivesInLine (λ read. (read.0, read.1.now)) result (description_at words.now) }
{
    let (description, rest) = prefixed_at(b"description=", words);
    Ok((copied(alloc, description)?, rest))
}

/// Whether the word begins a set of resources.
pub fn begins_set(word: &[u8]) -> bool
    ensures { result ≡ begins_set word.now }
{
    match word {
        [first, ..] => *first == b'/' || *first == b'[' || *first == b'(' || *first == b'{',
        [] => false,
    }
}

/// The name of a resource in a rule.
pub fn resource_of(word: &[u8]) -> Result<&[u8], ParseCause>
    ensures { Reads (λ name. name.now) result (resource_of word.now) }
{
    if begins_set(word) {
        Err(ParseCause::Unsupported)
    } else {
        name_of(word)
    }
}

/// The score that a word with its colon says.
#[tactic(auto, unfolding(crate::specs::Reading::score_of))]
pub fn score_of(word: &[u8]) -> Result<Score, ParseCause>
    ensures { result ≡ score_of word.now }
{
    let text = before(b":", word).ok_or(ParseCause::BadScore)?;
    Score::from_text(text).ok_or(ParseCause::BadScore)
}

/// A role that a rule may have.
pub fn supported(name: RoleName) -> Result<RoleWord, ParseCause>
    ensures { result ≡ supported name }
{
    match name {
        RoleName::Started => Ok(RoleWord::Started),
        RoleName::Promoted => Ok(RoleWord::Promoted),
        RoleName::Unpromoted | RoleName::Stopped => Err(ParseCause::Unsupported),
    }
}

/// The role of a rule.
#[tactic(auto, unfolding(crate::specs::Reading::rule_role_of))]
pub fn rule_role_of(word: &[u8]) -> Result<RoleWord, ParseCause>
    ensures { result ≡ rule_role_of word.now }
{
    let name = role_of(word).ok_or(ParseCause::BadValue)?;
    supported(name)
}
