//! The operations of a primitive.

ghost use Rattle.std.specs.Prelude.{◌≡◌, ◌&&◌, ◌==◌, length, filter, find, false, codes, unwrap_or};
ghost use Rattle.std.specs.List.{list_any};
ghost use Rattle.std.specs.Option.{option_and_then, option_copied, option_map_or};
ghost use Rattle.crm_lex.specs.Names.{is};
ghost use Rattle.crm_parse.specs.Keys.{is_monitor_name};
ghost use Rattle.crm_parse.specs.Operations.{has_op, has_monitor_room, interval_in, interval_of, is_off, is_single, new_name, op_pairs, operation_of, recurs, says_no, value_of, with_op_pair, with_op_pairs};
ghost use Rattle.faults.specs.Reading.{Reads};
ghost use Rattle.faults.specs.Inner.Reading.{GivesInLine};
ghost use Rattle.crm_parse.specs.Values.{time_of};

use crate::accept::when;
use crate::fault::Stop;
use crate::keyed_pairs::KeyedPairs;
use crate::pairs::add_pair;
use crate::place::{OpName, Place};
use crate::reading::{after, cut_at, name_of};
use crate::values::{bool_of, time_of};
use crate::{Kv, Operation, ParseCause};
use crm_lex::{Name, is};
use listed::Listed;
use std::alloc::Global;

/// The most recurring monitors of a primitive.
const MOST_MONITORS: usize = 8;

fn is_single(name: OpName) -> bool
    ensures { result ≡ is_single name }
{
    !matches!(name, OpName::Monitor | OpName::Other)
}

fn is_monitor(name: OpName) -> bool
    ensures { result ≡ is_monitor_name name }
{
    matches!(name, OpName::Monitor)
}

fn has_op(ops: &[Operation], name: &[u8]) -> bool
    ensures { result ≡ has_op ops.now name.now }
{
    ops.iter().any(|operation| is(operation.name.bytes(), name))
}

/// The name of an operation, after some operations.
#[tactic(auto, unfolding(crate::specs::Operations::new_name))]
fn new_name<'a>(ops: &[Operation], word: &'a [u8]) -> Result<&'a [u8], ParseCause>
    ensures { Reads (λ name. name.now) result (new_name ops.now word.now) }
{
    if is(word, b"rule") {
        return Err(ParseCause::Unsupported);
    }
    let name = name_of(word)?;
    if is_single(OpName::from_word(name)) && has_op(ops, name) {
        Err(ParseCause::RepeatedKey)
    } else {
        Ok(name)
    }
}

fn first_of_key<'a>(key: &[u8], pairs: &'a [Kv]) -> Option<&'a Kv>
    ensures { option_copied result ≡ find (λ pair. is pair.key key.now) pairs.now }
{
    pairs.iter().find(|pair| is(pair.key.bytes(), key))
}

/// The value of the first pair of a key. None where no pair has it.
pub fn value_of<'a>(key: &[u8], pairs: &'a [Kv]) -> Option<&'a [u8]>
    ensures { option_copied result ≡ value_of key.now pairs.now }
{
    first_of_key(key, pairs).map(|pair| pair.value.bytes())
}

fn says_no(word: &[u8]) -> bool
    ensures { result ≡ says_no word.now }
{
    match bool_of(word) {
        Some(yes) => !yes,
        None => false,
    }
}

fn is_switched_off(pairs: &[Kv]) -> bool
    ensures { result ≡ option_map_or says_no (value_of (codes "enabled") pairs.now) false }
{
    match value_of(b"enabled", pairs) {
        Some(value) => says_no(value),
        None => false,
    }
}

fn time_or_zero(value: Option<&[u8]>) -> u32
    ensures { result ≡ unwrap_or (option_and_then time_of (option_copied value.entry)) 0 }
{
    match value {
        Some(value) => time_of(value).unwrap_or(0),
        None => 0,
    }
}

/// The milliseconds between two runs of an operation by its pairs, and 0 where none of them says a time.
pub fn interval_of(pairs: &[Kv]) -> u32
    ensures { result ≡ interval_of pairs.now }
{
    time_or_zero(value_of(b"interval", pairs))
}

/// Whether the operation is a recurring monitor: it has an interval, and isn't switched off.
pub fn recurs(operation: &Operation) -> bool
    ensures { result ≡ recurs operation.now }
{
    let pairs = operation.pairs.as_slice();
    is(operation.name.bytes(), b"monitor") && !is_switched_off(pairs) && interval_of(pairs) > 0
}

fn count_recurring(ops: &[Operation]) -> usize
    ensures { result ≡ length (filter recurs ops.now) }
{
    ops.iter().filter(|operation| recurs(operation)).count()
}

fn has_interval(ops: &[Operation], interval: u32) -> bool
    ensures { result ≡ list_any (λ operation. recurs operation && (interval_of operation.pairs == interval)) ops.now }
{
    ops.iter().any(|operation| {
        recurs(operation) && interval_of(operation.pairs.as_slice()) == interval
    })
}

/// Takes one more recurring monitor of this interval where there is room for it.
fn has_room(ops: &[Operation], interval: u32) -> Result<(), ParseCause>
    ensures { result ≡ has_monitor_room ops.now interval }
{
    if interval == 0 {
        Ok(())
    } else if count_recurring(ops) >= MOST_MONITORS {
        Err(ParseCause::Unsupported)
    } else {
        when(!has_interval(ops, interval), ParseCause::RepeatedKey)
    }
}

/// Whether the pairs of an operation switch it off.
fn is_off(words: &[Name]) -> bool
    ensures { result ≡ is_off words.now }
{
    for word in words {
        let Some((key, value)) = cut_at(b'=', word.bytes()) else {
            return false;
        };
        if key.is_empty() {
            return false;
        }
        if is(key, b"enabled") {
            return says_no(value);
        }
    }
    false
}

/// The interval that a word says, and 0 where it says none.
fn interval_in(word: &[u8]) -> u32
    ensures { result ≡ interval_in word.now }
{
    time_or_zero(after(b"interval=", word))
}

/// Adds the pair of one more word. One that recurs has to find room among the operations before it.
#[tactic(auto, unfolding(crate::specs::Operations::with_op_pair))]
fn add_op_pair(
    alloc: Global,
    ops: &[Operation],
    recurring: bool,
    place: Place,
    pairs: &mut KeyedPairs,
    word: &Name,
) -> Result<(), Stop>
    ensures { GivesInLine (λ _. pairs.new) result (with_op_pair ops.now recurring place pairs.old word.now) }
{
    add_pair(alloc, place, pairs, word)?;
    let interval = if recurring {
        interval_in(word.bytes())
    } else {
        0
    };
    has_room(ops, interval)?;
    Ok(())
}

fn add_op_pairs(
    alloc: Global,
    ops: &[Operation],
    recurring: bool,
    place: Place,
    pairs: &mut KeyedPairs,
    words: &[Name],
) -> Result<(), Stop>
    ensures { GivesInLine (λ _. pairs.new) result (with_op_pairs ops.now recurring place pairs.old words.now) }
{
    for word in words {
        add_op_pair(alloc, ops, recurring, place, pairs, word)?;
    }
    Ok(())
}

/// The pairs of an operation, one or more.
fn op_pairs(
    alloc: Global,
    ops: &[Operation],
    name: OpName,
    words: &[Name],
) -> Result<Listed<Kv>, Stop>
    ensures { GivesInLine (λ pairs. pairs) result (op_pairs ops.now name words.now) }
{
    if words.is_empty() {
        return Err(Stop::Cause(ParseCause::MissingWord));
    }
    let recurring = is_monitor(name) && !is_off(words);
    let mut pairs = KeyedPairs::new(alloc);
    add_op_pairs(
        alloc,
        ops,
        recurring,
        Place::Operation(name),
        &mut pairs,
        words,
    )?;
    Ok(pairs.into_list())
}

/// An operation after some operations: its name and its pairs.
#[tactic(auto, unfolding(crate::specs::Operations::operation_of))]
pub fn operation_of(alloc: Global, ops: &[Operation], words: &[Name]) -> Result<Operation, Stop>
    ensures { GivesInLine (λ operation. operation) result (operation_of ops.now words.now) }
{
    let [word, rest @ ..] = words else {
        return Err(Stop::Cause(ParseCause::MissingWord));
    };
    let name = new_name(ops, word.bytes())?;
    let pairs = op_pairs(alloc, ops, OpName::from_word(name), rest)?;
    Ok(Operation {
        name: Name::from_bytes(alloc, name)?,
        pairs,
    })
}
