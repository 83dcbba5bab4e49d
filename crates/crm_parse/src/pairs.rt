//! The pairs of a section.

ghost use Rattle.std.specs.Prelude.{◌≡◌};
ghost use Rattle.crm_parse.specs.Pairs.{kv_of, pair_of, with_pair, with_pairs, with_section};
ghost use Rattle.faults.specs.Reading.{Reads};
ghost use Rattle.faults.specs.Inner.Reading.{GivesInLine};

use crate::fault::Stop;
use crate::keyed_pairs::KeyedPairs;
use crate::keys::{accepts, stray};
use crate::place::Place;
use crate::reading::cut_at;
use crate::{Kv, ParseCause};
use crm_lex::{Name, is};
use std::alloc::Global;

fn pair_of(place: Place, word: &[u8]) -> Result<(&[u8], &[u8]), ParseCause>
    ensures { Reads (λ pair. (pair.0.now, pair.1.now)) result (pair_of place word.now) }
{
    match cut_at(b'=', word) {
        Some((key, value)) => {
            if key.is_empty() {
                Err(stray(place, word))
            } else {
                Ok((key, value))
            }
        }
        None => Err(stray(place, word)),
    }
}

/// Copies a pair whose value its key takes.
#[tactic(auto, unfolding(crate::specs::Pairs::kv_of))]
pub fn kv_of(alloc: Global, place: Place, word: &Name) -> Result<Kv, Stop>
    ensures { GivesInLine (λ pair. pair) result (kv_of place word.now) }
{
    let (key, value) = pair_of(place, word.bytes())?;
    accepts(place, key, value)?;
    Ok(Kv {
        key: Name::from_bytes(alloc, key)?,
        value: Name::from_bytes(alloc, value)?,
    })
}

/// Adds the pair of one more word.
#[tactic(auto, unfolding(crate::specs::Pairs::with_pair))]
pub fn add_pair(
    alloc: Global,
    place: Place,
    pairs: &mut KeyedPairs,
    word: &Name,
) -> Result<(), Stop>
    ensures { GivesInLine (λ _. pairs.new) result (with_pair place pairs.old word.now) }
{
    let pair = kv_of(alloc, place, word)?;
    if pairs.repeats(place, &pair.key) {
        return Err(Stop::Cause(ParseCause::RepeatedKey));
    }
    pairs.push(alloc, pair)?;
    Ok(())
}

fn add_pairs(
    alloc: Global,
    place: Place,
    pairs: &mut KeyedPairs,
    words: &[Name],
) -> Result<(), Stop>
    ensures { GivesInLine (λ _. pairs.new) result (with_pairs place pairs.old words.now) }
{
    for word in words {
        add_pair(alloc, place, pairs, word)?;
    }
    Ok(())
}

/// Adds the pairs of a section, which has one or more.
pub fn add_section(
    alloc: Global,
    place: Place,
    pairs: &mut KeyedPairs,
    words: &[Name],
) -> Result<(), Stop>
    ensures { GivesInLine (λ _. pairs.new) result (with_section place pairs.old words.now) }
{
    match words {
        [] => Err(Stop::Cause(ParseCause::MissingWord)),
        [first, ..] => {
            if is(first.bytes(), b"rule") {
                return Err(Stop::Cause(ParseCause::Unsupported));
            }
            add_pairs(alloc, place, pairs, words)
        }
    }
}
