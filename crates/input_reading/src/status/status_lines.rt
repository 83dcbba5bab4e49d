//! What one line of a status tells.

ghost use Rattle.std.specs.Prelude.{◌≡◌, ◌<◌, ◌^◌, ℕ, length, true, IfOk};
ghost use Rattle.cluster_types.specs.Journals.{is_history_event};
ghost use Rattle.cluster_types.specs.declared.journal.Event.TheVariants as event;
ghost use Rattle.faults.specs.Digits.{number_up_to};
ghost use Rattle.input_reading.specs.Inner.FirstJournal.{is_known};
ghost use Rattle.input_reading.specs.Status.{history_action, cleanup_line, fitting, interval_as, interval_at, may_have, node_line, node_word, now_line, op_at, op_line, outcome_at, outcome_of, promotable, promotable_at, promotion_line, quorum_line, score_at, state_at, status_word, told_as, told_of};

use crate::status::line_meaning::{Fact, NodeWord};
use crate::{
    WordCause, Words, code_of, end_at, interval_of, leaf_at, node_at, seconds_at, word_at, yes_at,
};
use cluster_types::{Action, Event, LeafId, NodeId, Op, Outcome, Promotion, Role};
use crm_lex::is;
use faults::number_up_to;
use names::Names;
use score::Score;

/// The forms of the lines of a status.
#[derive(Clone, Copy)]
pub(crate) enum StatusWord {
    Now,
    Quorum,
    Node,
    Op,
    Cleanup,
    Promotion,
}

#[tactic(auto, unfolding(crate::specs::Status::status_word))]
fn status_word(word: &[u8]) -> Result<StatusWord, WordCause>
    ensures { result ≡ status_word word.now }
{
    if is(word, b"now") {
        Ok(StatusWord::Now)
    } else if is(word, b"quorum") {
        Ok(StatusWord::Quorum)
    } else if is(word, b"node") {
        Ok(StatusWord::Node)
    } else if is(word, b"op") {
        Ok(StatusWord::Op)
    } else if is(word, b"cleanup") {
        Ok(StatusWord::Cleanup)
    } else if is(word, b"promotion") {
        Ok(StatusWord::Promotion)
    } else {
        Err(WordCause::UnknownStatement)
    }
}

#[tactic(auto, unfolding(crate::specs::Status::now_line))]
fn now_line<W: Words>(words: &W) -> Result<Fact, WordCause>
    ensures value { result ≡ now_line (W.words words.now) }
    ensures known { (nodes : ℕ) → IfOk result (λ told. is_known nodes told ≡ true) }
{
    let seconds = seconds_at(1, words)?;
    end_at(2, words)?;
    Ok(Fact::Now(seconds))
}

#[tactic(auto, unfolding(crate::specs::Status::quorum_line))]
fn quorum_line<W: Words>(words: &W) -> Result<Fact, WordCause>
    ensures value { result ≡ quorum_line (W.words words.now) }
    ensures known { (nodes : ℕ) → IfOk result (λ told. is_known nodes told ≡ true) }
{
    let yes = yes_at(1, words)?;
    end_at(2, words)?;
    Ok(Fact::Quorum(yes))
}

fn node_word(word: &[u8]) -> Option<NodeWord>
    ensures { result ≡ node_word word.now }
{
    if is(word, b"online") {
        Some(NodeWord::Online)
    } else if is(word, b"offline") {
        Some(NodeWord::Offline)
    } else if is(word, b"unclean") {
        Some(NodeWord::Unclean)
    } else {
        None
    }
}

#[tactic(auto, unfolding(crate::specs::Status::state_at))]
fn state_at<W: Words>(place: usize, words: &W) -> Result<NodeWord, WordCause>
    ensures { result ≡ state_at place (W.words words.now) }
{
    let word = word_at(place, words)?;
    node_word(word).ok_or(WordCause::BadValue)
}

#[tactic(auto, unfolding(crate::specs::Status::node_line))]
fn node_line<W: Words>(names: &Names<'_>, words: &W) -> Result<Fact, WordCause>
    ensures value { result ≡ node_line names.now (W.words words.now) }
    ensures known { (nodes : ℕ) → IfOk result (λ told. is_known nodes told ≡ true) }
{
    let node = node_at(names, 1, words)?;
    let word = state_at(2, words)?;
    end_at(3, words)?;
    Ok(Fact::Node { node, word })
}

/// Whether the leaf may have had the operation: only a promotable leaf is promoted and demoted.
fn may_have(names: &Names<'_>, leaf: LeafId, op: Op) -> bool
    ensures { result ≡ may_have names.now leaf op }
{
    match op {
        Op::Promote | Op::Demote => names.cluster().is_promotable(leaf),
        Op::Start | Op::Stop | Op::Monitor => true,
    }
}

fn fitting(names: &Names<'_>, leaf: LeafId, op: Op) -> Result<Op, WordCause>
    ensures { result ≡ fitting names.now leaf op }
{
    if may_have(names, leaf, op) {
        Ok(op)
    } else {
        Err(WordCause::BadValue)
    }
}

#[tactic(auto, unfolding(crate::specs::Status::op_at))]
fn op_at<W: Words>(
    names: &Names<'_>,
    leaf: LeafId,
    place: usize,
    words: &W,
) -> Result<Op, WordCause>
    ensures { result ≡ op_at names.now leaf place (W.words words.now) }
{
    let word = word_at(place, words)?;
    let op = Op::from_word(word).ok_or(WordCause::BadValue)?;
    fitting(names, leaf, op)
}

/// The interval of an operation that has none: 0.
fn no_interval_of(word: &[u8]) -> Option<u32>
    ensures { result ≡ number_up_to 0 word.now }
{
    let interval = number_up_to(0, word)?;
    Some(interval as u32)
}

/// The milliseconds of an operation: 0 but for a monitor.
fn interval_as(op: Op, word: &[u8]) -> Option<u32>
    ensures { result ≡ interval_as op word.now }
{
    match op {
        Op::Monitor => interval_of(word),
        Op::Start | Op::Stop | Op::Promote | Op::Demote => no_interval_of(word),
    }
}

#[tactic(auto, unfolding(crate::specs::Status::interval_at))]
fn interval_at<W: Words>(op: Op, place: usize, words: &W) -> Result<u32, WordCause>
    ensures { result ≡ interval_at op place (W.words words.now) }
{
    let word = word_at(place, words)?;
    interval_as(op, word).ok_or(WordCause::BadValue)
}

fn outcome_of(word: &[u8]) -> Option<Outcome>
    ensures { result ≡ outcome_of word.now }
{
    if is(word, b"timeout") {
        return Some(Outcome::TimedOut);
    }
    let code = code_of(word)?;
    Some(Outcome::Code(code))
}

#[tactic(auto, unfolding(crate::specs::Status::outcome_at))]
fn outcome_at<W: Words>(place: usize, words: &W) -> Result<Outcome, WordCause>
    ensures { result ≡ outcome_at place (W.words words.now) }
{
    let word = word_at(place, words)?;
    outcome_of(word).ok_or(WordCause::BadValue)
}

/// The operation as an action of the cell.
fn action_as(names: &Names<'_>, op: Op, leaf: LeafId, node: NodeId, interval_ms: u32) -> Action
    requires { node < length names.now.nodes }
    ensures value { result ≡ history_action names.now op leaf node interval_ms }
    ensures known { is_history_event (length names.now.nodes) (event.Ended 0 result Outcome.TimedOut 0) ≡ true }
{
    match op {
        Op::Monitor if interval_ms == 0 => Action::Probe { leaf, node },
        Op::Monitor => Action::Operation {
            op,
            leaf,
            node,
            interval_ms,
            role: names.cluster().role_of_interval(leaf, interval_ms),
        },
        Op::Start | Op::Stop | Op::Promote | Op::Demote => Action::Operation {
            op,
            leaf,
            node,
            interval_ms: 0,
            role: Role::Started,
        },
    }
}

#[tactic(auto, unfolding(crate::specs::Status::op_line))]
fn op_line<W: Words>(names: &Names<'_>, words: &W) -> Result<Fact, WordCause>
    ensures value { result ≡ op_line names.now (W.words words.now) }
    ensures known { IfOk result (λ told. is_known (length names.now.nodes) told ≡ true) }
{
    let node = node_at(names, 1, words)?;
    let leaf = leaf_at(names, 2, words)?;
    let op = op_at(names, leaf, 3, words)?;
    let interval_ms = interval_at(op, 4, words)?;
    let outcome = outcome_at(5, words)?;
    let moment = seconds_at(6, words)?;
    end_at(7, words)?;
    Ok(Fact::Past(Event::Ended {
        number: 0,
        action: action_as(names, op, leaf, node, interval_ms),
        outcome,
        moment,
    }))
}

#[tactic(auto, unfolding(crate::specs::Status::cleanup_line))]
fn cleanup_line<W: Words>(names: &Names<'_>, words: &W) -> Result<Fact, WordCause>
    ensures value { result ≡ cleanup_line names.now (W.words words.now) }
    ensures known { IfOk result (λ told. is_known (length names.now.nodes) told ≡ true) }
{
    let node = node_at(names, 1, words)?;
    let leaf = leaf_at(names, 2, words)?;
    end_at(3, words)?;
    Ok(Fact::Past(Event::Cleanup { leaf, node }))
}

fn promotable(names: &Names<'_>, leaf: LeafId) -> Result<LeafId, WordCause>
    ensures { result ≡ promotable names.now leaf }
{
    if names.cluster().is_promotable(leaf) {
        Ok(leaf)
    } else {
        Err(WordCause::BadValue)
    }
}

#[tactic(auto, unfolding(crate::specs::Status::promotable_at))]
fn promotable_at<W: Words>(names: &Names<'_>, place: usize, words: &W) -> Result<LeafId, WordCause>
    ensures { result ≡ promotable_at names.now place (W.words words.now) }
{
    let leaf = leaf_at(names, place, words)?;
    promotable(names, leaf)
}

#[tactic(auto, unfolding(crate::specs::Status::score_at))]
fn score_at<W: Words>(place: usize, words: &W) -> Result<Score, WordCause>
    ensures { result ≡ score_at place (W.words words.now) }
{
    let word = word_at(place, words)?;
    Score::from_text(word).ok_or(WordCause::BadValue)
}

#[tactic(auto, unfolding(crate::specs::Status::promotion_line))]
fn promotion_line<W: Words>(names: &Names<'_>, words: &W) -> Result<Fact, WordCause>
    ensures value { result ≡ promotion_line names.now (W.words words.now) }
    ensures known { (nodes : ℕ) → IfOk result (λ told. is_known nodes told ≡ true) }
{
    let node = node_at(names, 1, words)?;
    let leaf = promotable_at(names, 2, words)?;
    let score = score_at(3, words)?;
    end_at(4, words)?;
    Ok(Fact::Promoting(Promotion { leaf, node, score }))
}

fn told_as<W: Words>(names: &Names<'_>, form: StatusWord, words: &W) -> Result<Fact, WordCause>
    ensures value { result ≡ told_as names.now form (W.words words.now) }
    ensures known { IfOk result (λ told. is_known (length names.now.nodes) told ≡ true) }
{
    match form {
        StatusWord::Now => now_line(words),
        StatusWord::Quorum => quorum_line(words),
        StatusWord::Node => node_line(names, words),
        StatusWord::Op => op_line(names, words),
        StatusWord::Cleanup => cleanup_line(names, words),
        StatusWord::Promotion => promotion_line(names, words),
    }
}

/// What the words of a line tell.
#[tactic(auto, unfolding(crate::specs::Status::told_of))]
pub fn told_of<W: Words>(names: &Names<'_>, words: &W) -> Result<Fact, WordCause>
    ensures value { result ≡ told_of names.now (W.words words.now) }
    ensures known { IfOk result (λ told. is_known (length names.now.nodes) told ≡ true) }
{
    let first = word_at(0, words)?;
    let form = status_word(first)?;
    told_as(names, form, words)
}
