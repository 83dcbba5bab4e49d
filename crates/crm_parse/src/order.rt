//! `order ID [KIND: or SCORE:] RESOURCE[:ACTION] RESOURCE[:ACTION].. [symmetrical=BOOL]`

ghost use Rattle.std.specs.Prelude.{◌≡◌, []};
ghost use Rattle.std.specs.Option.{option_copied};
ghost use Rattle.crm_parse.specs.Order.{ends_steps, is_serialize_word, kind_at, kind_by_score, kind_by_word, kind_in, order_at, some_action, read_order_step, step_parts, order_steps_at, symmetrical_as, symmetrical_in, with_step, with_steps, written_action};
ghost use Rattle.faults.specs.Reading.{Reads};
ghost use Rattle.faults.specs.Inner.Reading.{GivesInLine};

use crate::draft::{OrderDraft, StepDraft};
use crate::fault::Stop;
use crate::reading::{after, colon_at, cut_at, end_at, name_at, prefixed_at, resource_of, word_at};
use crate::values::{action_of, bool_of, kind_of};
use crate::{ActionWord, KindWord, ParseCause};
use crm_lex::Name;
use faults::{done, with};
use listed::Listed;
use score::Score;
use std::alloc::Global;

fn kind_by_score(score: Score) -> Result<KindWord, ParseCause>
    ensures { result ≡ kind_by_score score }
{
    if score.points < 0 {
        Err(ParseCause::BadScore)
    } else if score.points > 0 {
        Ok(KindWord::Mandatory)
    } else {
        Ok(KindWord::Optional)
    }
}

/// The kind that a word without its colon says, by its name or by a score.
#[tactic(auto, unfolding(crate::specs::Order::kind_by_word))]
fn kind_by_word(word: &[u8]) -> Result<KindWord, ParseCause>
    ensures { result ≡ kind_by_word word.now }
{
    match kind_of(word) {
        Some(kind) => Ok(kind),
        None => {
            let score = Score::from_text(word).ok_or(ParseCause::BadValue)?;
            kind_by_score(score)
        }
    }
}

fn kind_in(word: Option<&[u8]>) -> Result<KindWord, ParseCause>
    ensures { result ≡ kind_in (option_copied word.entry) }
{
    match word {
        Some(word) => kind_by_word(word),
        None => Ok(KindWord::Mandatory),
    }
}

#[tactic(auto, unfolding(crate::specs::Order::kind_at))]
fn kind_at(words: &[Name]) -> Result<(KindWord, &[Name]), ParseCause>
    ensures { Reads (λ read. (read.0, read.1.now)) result (kind_at words.now) }
{
    let (word, rest) = colon_at(words);
    Ok((kind_in(word)?, rest))
}

fn some_action(word: &[u8]) -> Result<Option<ActionWord>, ParseCause>
    ensures { result ≡ some_action word.now }
{
    let action = action_of(word).ok_or(ParseCause::BadValue)?;
    Ok(Some(action))
}

fn written_action(word: Option<&[u8]>) -> Result<Option<ActionWord>, ParseCause>
    ensures { result ≡ written_action (option_copied word.entry) }
{
    match word {
        Some(word) => some_action(word),
        None => Ok(None),
    }
}

fn step_parts(word: &[u8]) -> (&[u8], Option<&[u8]>)
    ensures { (result.0.now, option_copied result.1) ≡ step_parts word.now }
{
    match cut_at(b':', word) {
        Some((resource, action)) => (resource, Some(action)),
        None => (word, None),
    }
}

/// A resource, and an action after a colon.
#[tactic(auto, unfolding(crate::specs::Order::read_order_step))]
fn step_of(alloc: Global, word: &[u8]) -> Result<StepDraft, Stop>
    ensures { GivesInLine (λ step. step) result (read_order_step word.now) }
{
    let (resource, action) = step_parts(word);
    let resource = resource_of(resource)?;
    let action = written_action(action)?;
    Ok(StepDraft {
        resource: Name::from_bytes(alloc, resource)?,
        action,
    })
}

#[tactic(auto, unfolding(crate::specs::Order::with_step))]
fn add_step<'a>(
    alloc: Global,
    steps: &mut Listed<StepDraft>,
    words: &'a [Name],
) -> Result<&'a [Name], Stop>
    ensures { GivesInLine (λ rest. (steps.new, rest.now)) result (with_step steps.old words.now) }
{
    let (word, rest) = word_at(words)?;
    let step = step_of(alloc, word.bytes())?;
    steps.push(step)?;
    Ok(rest)
}

fn ends_steps(word: &Name) -> bool
    ensures { result ≡ ends_steps word.now }
{
    after(b"symmetrical=", word.bytes()).is_some()
}

fn add_steps<'a>(
    alloc: Global,
    steps: &mut Listed<StepDraft>,
    words: &'a [Name],
) -> Result<&'a [Name], Stop>
    ensures { GivesInLine (λ rest. (steps.new, rest.now)) result (with_steps steps.old words.now) }
{
    let mut rest = words;
    while let [word, after @ ..] = rest {
        if ends_steps(word) {
            return Ok(rest);
        }
        let step = step_of(alloc, word.bytes())?;
        steps.push(step)?;
        rest = after;
    }
    Ok(rest)
}

/// Two resources or more.
#[tactic(auto, unfolding(crate::specs::Order::order_steps_at))]
fn steps_at(alloc: Global, words: &[Name]) -> Result<(Listed<StepDraft>, &[Name]), Stop>
    ensures { GivesInLine (λ read. (read.0, read.1.now)) result (order_steps_at words.now) }
{
    let mut steps = Listed::new(alloc);
    let rest = add_step(alloc, &mut steps, words);
    let (mut steps, rest) = with(steps, rest)?;
    let rest = add_step(alloc, &mut steps, rest);
    let (mut steps, rest) = with(steps, rest)?;
    let rest = add_steps(alloc, &mut steps, rest);
    with(steps, rest)
}

fn symmetrical_as(kind: KindWord, yes: bool) -> Result<bool, ParseCause>
    ensures { result ≡ symmetrical_as kind yes }
{
    match (kind, yes) {
        (KindWord::Serialize, true) => Err(ParseCause::Unsupported),
        (_, _) => Ok(yes),
    }
}

#[tactic(auto, unfolding(crate::specs::Order::symmetrical_in))]
fn symmetrical_in(kind: KindWord, word: Option<&[u8]>) -> Result<bool, ParseCause>
    ensures { result ≡ symmetrical_in kind (option_copied word.entry) }
{
    match word {
        Some(word) => {
            let yes = bool_of(word).ok_or(ParseCause::BadValue)?;
            symmetrical_as(kind, yes)
        }
        None => Ok(!matches!(kind, KindWord::Serialize)),
    }
}

/// Reads the words after `order`.
#[tactic(auto, unfolding(crate::specs::Order::order_at))]
pub fn order_at(alloc: Global, words: &[Name]) -> Result<OrderDraft, Stop>
    ensures { GivesInLine (λ order. order) result (order_at words.now) }
{
    let (id, rest) = name_at(alloc, words)?;
    let (id, (kind, rest)) = with(id, kind_at(rest))?;
    let (id, (steps, rest)) = with(id, steps_at(alloc, rest))?;
    let (symmetrical, rest) = prefixed_at(b"symmetrical=", rest);
    let ((id, steps), symmetrical) = with((id, steps), symmetrical_in(kind, symmetrical))?;
    let (id, steps) = done((id, steps), end_at(rest))?;
    Ok(OrderDraft {
        id,
        kind,
        steps,
        symmetrical,
    })
}
