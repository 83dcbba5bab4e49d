//! What one line of a run says, by its words.

ghost use Rattle.std.specs.Prelude.{◌≡◌};
ghost use Rattle.faults.specs.Reading.{Reads};
ghost use Rattle.input_reading.specs.RunReading.{aborted_line, answer_line, begin_line, complete_line, held_line, lacking_line, line_as, line_of_words, number_alone, pinned_line, plain_line, target_line, transition_line, unexpected_line};
ghost use Rattle.input_reading.specs.Inner.LentLines.{said_of};

use crate::run::actions::action_as;
use crate::run::words::{LineWord, action_word_at, id_at, line_word, pin_at, reason_of, target_at};
use crate::{WordCause, Words, answer_of, end_at, leaf_at, node_at, number_at, word_at};
use cluster_types::{LeafId, RunLine};
use crm_lex::is;
use names::Names;

/// What a line says, without memory: the id of a rule is lent.
pub(crate) enum Said<'w> {
    Line(RunLine),
    /// The rule of this id holds the leaf back.
    Held(LeafId, &'w [u8]),
}

/// The number behind the first word, where nothing stands behind it.
#[tactic(auto, unfolding(crate::specs::RunReading::number_alone))]
fn number_alone<W: Words>(words: &W) -> Result<u32, WordCause>
    ensures { result ≡ number_alone (W.words words.now) }
{
    let number = number_at(1, words)?;
    end_at(2, words)?;
    Ok(number)
}

#[tactic(auto, unfolding(crate::specs::RunReading::transition_line))]
fn transition_line<W: Words>(words: &W) -> Result<RunLine, WordCause>
    ensures { result ≡ transition_line (W.words words.now) }
{
    let number = number_alone(words)?;
    Ok(RunLine::Transition(number))
}

#[tactic(auto, unfolding(crate::specs::RunReading::complete_line))]
fn complete_line<W: Words>(words: &W) -> Result<RunLine, WordCause>
    ensures { result ≡ complete_line (W.words words.now) }
{
    let number = number_alone(words)?;
    Ok(RunLine::Complete(number))
}

#[tactic(auto, unfolding(crate::specs::RunReading::aborted_line))]
fn aborted_line<W: Words>(words: &W) -> Result<RunLine, WordCause>
    ensures { result ≡ aborted_line (W.words words.now) }
{
    let number = number_alone(words)?;
    Ok(RunLine::Aborted(number))
}

#[tactic(auto, unfolding(crate::specs::RunReading::unexpected_line))]
fn unexpected_line<W: Words>(words: &W) -> Result<RunLine, WordCause>
    ensures { result ≡ unexpected_line (W.words words.now) }
{
    let number = number_alone(words)?;
    Ok(RunLine::Unexpected(number))
}

#[tactic(auto, unfolding(crate::specs::RunReading::pinned_line))]
fn pinned_line<W: Words>(names: &Names<'_>, words: &W) -> Result<RunLine, WordCause>
    ensures { result ≡ pinned_line names.now (W.words words.now) }
{
    let leaf = leaf_at(names, 1, words)?;
    let pin = pin_at(2, words)?;
    end_at(3, words)?;
    Ok(RunLine::Pinned(leaf, pin))
}

#[tactic(auto, unfolding(crate::specs::RunReading::target_line))]
fn target_line<W: Words>(names: &Names<'_>, words: &W) -> Result<RunLine, WordCause>
    ensures { result ≡ target_line names.now (W.words words.now) }
{
    let leaf = leaf_at(names, 1, words)?;
    let node = node_at(names, 2, words)?;
    let target = target_at(3, words)?;
    end_at(4, words)?;
    Ok(RunLine::Goal(leaf, node, target))
}

#[tactic(auto, unfolding(crate::specs::RunReading::begin_line))]
fn begin_line<W: Words>(names: &Names<'_>, words: &W) -> Result<RunLine, WordCause>
    ensures { result ≡ begin_line names.now (W.words words.now) }
{
    let number = number_at(1, words)?;
    let form = action_word_at(2, words)?;
    let action = action_as(names, form, words)?;
    Ok(RunLine::Begin(number, action))
}

#[tactic(auto, unfolding(crate::specs::RunReading::answer_line))]
fn answer_line<W: Words>(names: &Names<'_>, words: &W) -> Result<RunLine, WordCause>
    ensures { result ≡ answer_line names.now (W.words words.now) }
{
    let answer = answer_of(names, 0, words)?;
    Ok(RunLine::Taken(answer))
}

#[tactic(auto, unfolding(crate::specs::RunReading::held_line))]
fn held_line<W: Words>(leaf: LeafId, words: &W) -> Result<Said<'_>, WordCause>
    ensures { Reads said_of result (held_line leaf (W.words words.now)) }
{
    let id = id_at(3, words)?;
    end_at(4, words)?;
    Ok(Said::Held(leaf, id))
}

#[tactic(auto, unfolding(crate::specs::RunReading::plain_line))]
fn plain_line<W: Words>(leaf: LeafId, word: &[u8], words: &W) -> Result<RunLine, WordCause>
    ensures { result ≡ plain_line leaf word.now (W.words words.now) }
{
    let reason = reason_of(word).ok_or(WordCause::BadValue)?;
    end_at(3, words)?;
    Ok(RunLine::Lacking(leaf, reason))
}

#[tactic(auto, unfolding(crate::specs::RunReading::lacking_line))]
fn lacking_line<'w, W: Words>(names: &Names<'_>, words: &'w W) -> Result<Said<'w>, WordCause>
    ensures { Reads said_of result (lacking_line names.now (W.words words.now)) }
{
    let leaf = leaf_at(names, 1, words)?;
    let word = word_at(2, words)?;
    if is(word, b"Held") {
        return held_line(leaf, words);
    }
    let line = plain_line(leaf, word, words)?;
    Ok(Said::Line(line))
}

fn line_as<'w, W: Words>(
    names: &Names<'_>,
    form: LineWord,
    words: &'w W,
) -> Result<Said<'w>, WordCause>
    ensures { Reads said_of result (line_as names.now form (W.words words.now)) }
{
    let line = match form {
        LineWord::Lacking => return lacking_line(names, words),
        LineWord::Transition => transition_line(words)?,
        LineWord::Pinned => pinned_line(names, words)?,
        LineWord::Target => target_line(names, words)?,
        LineWord::Begin => begin_line(names, words)?,
        LineWord::Complete => complete_line(words)?,
        LineWord::Aborted => aborted_line(words)?,
        LineWord::Unexpected => unexpected_line(words)?,
        LineWord::Answer => answer_line(names, words)?,
    };
    Ok(Said::Line(line))
}

/// What the words of a line say.
#[tactic(auto, unfolding(crate::specs::RunReading::line_of_words))]
pub(crate) fn line_of_words<'w, W: Words>(
    names: &Names<'_>,
    words: &'w W,
) -> Result<Said<'w>, WordCause>
    ensures { Reads said_of result (line_of_words names.now (W.words words.now)) }
{
    let first = word_at(0, words)?;
    line_as(names, line_word(first), words)
}
