//! The words of the lines of a run, and what they stand for.

ghost use Rattle.std.specs.Prelude.{◌≡◌};
ghost use Rattle.faults.specs.Reading.{Reads};
ghost use Rattle.input_reading.specs.LineWords.{action_of_op, action_word, action_word_at, id_at, line_word, pin_at, pin_named, reason_of, target_at, target_of};

use crate::{WordCause, Words, word_at};
use cluster_types::{NoReason, Op, Pin, Target};
use crm_lex::is;
use crm_parse::is_name;

/// The forms of the lines of a run.
#[derive(Clone, Copy)]
pub(crate) enum LineWord {
    Transition,
    Pinned,
    Target,
    Lacking,
    Begin,
    Complete,
    Aborted,
    Unexpected,
    /// An answer, if it is one.
    Answer,
}

/// The forms of actions.
#[derive(Clone, Copy)]
pub(crate) enum ActionWord {
    Fence,
    Probe,
    /// An operation that is no monitor.
    Operation(Op),
    Monitor,
    MigrateTo,
    MigrateFrom,
}

/// What a first word begins.
#[tactic(auto, unfolding(crate::specs::LineWords::line_word))]
pub(crate) fn line_word(word: &[u8]) -> LineWord
    ensures { result ≡ line_word word.now }
{
    if is(word, b"transition") {
        LineWord::Transition
    } else if is(word, b"pinned") {
        LineWord::Pinned
    } else if is(word, b"target") {
        LineWord::Target
    } else if is(word, b"none") {
        LineWord::Lacking
    } else if is(word, b"begin") {
        LineWord::Begin
    } else if is(word, b"complete") {
        LineWord::Complete
    } else if is(word, b"aborted") {
        LineWord::Aborted
    } else if is(word, b"unexpected") {
        LineWord::Unexpected
    } else {
        LineWord::Answer
    }
}

fn pin_of(word: &[u8]) -> Option<Pin>
    ensures { result ≡ pin_named word.now }
{
    if is(word, b"unmanaged") {
        Some(Pin::Unmanaged)
    } else if is(word, b"blocked") {
        Some(Pin::Blocked)
    } else {
        None
    }
}

fn target_of(word: &[u8]) -> Option<Target>
    ensures { result ≡ target_of word.now }
{
    if is(word, b"started") {
        Some(Target::Started)
    } else if is(word, b"promoted") {
        Some(Target::Promoted)
    } else {
        None
    }
}

/// Why a leaf has no target, where no rule holds it back.
#[tactic(auto, unfolding(crate::specs::LineWords::reason_of))]
pub(crate) fn reason_of(word: &[u8]) -> Option<NoReason>
    ensures { result ≡ reason_of word.now }
{
    if is(word, b"NoCopies") {
        Some(NoReason::NoCopies)
    } else if is(word, b"Stopped") {
        Some(NoReason::Stopped)
    } else if is(word, b"OnFail") {
        Some(NoReason::OnFail)
    } else if is(word, b"StopAll") {
        Some(NoReason::StopAll)
    } else if is(word, b"NoQuorum") {
        Some(NoReason::NoQuorum)
    } else if is(word, b"NoNode") {
        Some(NoReason::NoNode)
    } else {
        None
    }
}

/// The action that runs the operation.
fn action_of_op(op: Op) -> ActionWord
    ensures { result ≡ action_of_op op }
{
    match op {
        Op::Monitor => ActionWord::Monitor,
        _ => ActionWord::Operation(op),
    }
}

#[tactic(auto, unfolding(crate::specs::LineWords::action_word))]
fn action_word(word: &[u8]) -> Option<ActionWord>
    ensures { result ≡ action_word word.now }
{
    if is(word, b"fence") {
        Some(ActionWord::Fence)
    } else if is(word, b"probe") {
        Some(ActionWord::Probe)
    } else if is(word, b"migrate_to") {
        Some(ActionWord::MigrateTo)
    } else if is(word, b"migrate_from") {
        Some(ActionWord::MigrateFrom)
    } else {
        Op::from_word(word).map(action_of_op)
    }
}

/// Why a leaf is left as it is.
#[tactic(auto, unfolding(crate::specs::LineWords::pin_at))]
pub(crate) fn pin_at<W: Words>(place: usize, words: &W) -> Result<Pin, WordCause>
    ensures { result ≡ pin_at place (W.words words.now) }
{
    let word = word_at(place, words)?;
    pin_of(word).ok_or(WordCause::BadValue)
}

/// What a leaf is to be on a node.
#[tactic(auto, unfolding(crate::specs::LineWords::target_at))]
pub(crate) fn target_at<W: Words>(place: usize, words: &W) -> Result<Target, WordCause>
    ensures { result ≡ target_at place (W.words words.now) }
{
    let word = word_at(place, words)?;
    target_of(word).ok_or(WordCause::BadValue)
}

/// The id of a rule.
#[tactic(auto, unfolding(crate::specs::LineWords::id_at))]
pub(crate) fn id_at<W: Words>(place: usize, words: &W) -> Result<&[u8], WordCause>
    ensures { Reads (λ id. id.now) result (id_at place (W.words words.now)) }
{
    let word = word_at(place, words)?;
    if is_name(word) {
        Ok(word)
    } else {
        Err(WordCause::BadValue)
    }
}

/// What an action does.
#[tactic(auto, unfolding(crate::specs::LineWords::action_word_at))]
pub(crate) fn action_word_at<W: Words>(place: usize, words: &W) -> Result<ActionWord, WordCause>
    ensures { result ≡ action_word_at place (W.words words.now) }
{
    let word = word_at(place, words)?;
    action_word(word).ok_or(WordCause::BadValue)
}
