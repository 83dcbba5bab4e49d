//! What one result line answers.

ghost use Rattle.std.specs.Prelude.{◌≡◌, ◌+◌, ◌<◌, ◌^◌, IfOk};
ghost use Rattle.cluster_types.specs.AnswersThatApply.{seconds_in};
ghost use Rattle.input_reading.specs.Results.{answer_as, answer_of, end_line, in_time, lost_line, quorum_answer, report_line, result_word, timeout_line, up_line, wait_line};

use crate::{
    WordCause, Words, code_at, end_at, leaf_at, node_at, number_at, seconds_at, word_at, yes_at,
};
use cluster_types::Answer;
use crm_lex::is;
use names::Names;

/// The forms of result lines.
#[derive(Clone, Copy)]
pub(crate) enum ResultWord {
    End,
    Timeout,
    Lost,
    Up,
    Quorum,
    Wait,
    Report,
}

#[tactic(auto, unfolding(crate::specs::Results::result_word))]
fn result_word(word: &[u8]) -> Result<ResultWord, WordCause>
    ensures { result ≡ result_word word.now }
{
    if is(word, b"end") {
        Ok(ResultWord::End)
    } else if is(word, b"timeout") {
        Ok(ResultWord::Timeout)
    } else if is(word, b"lost") {
        Ok(ResultWord::Lost)
    } else if is(word, b"up") {
        Ok(ResultWord::Up)
    } else if is(word, b"quorum") {
        Ok(ResultWord::Quorum)
    } else if is(word, b"wait") {
        Ok(ResultWord::Wait)
    } else if is(word, b"report") {
        Ok(ResultWord::Report)
    } else {
        Err(WordCause::UnknownStatement)
    }
}

#[tactic(auto, unfolding(crate::specs::Results::end_line))]
fn end_line<W: Words>(words: &W) -> Result<Answer, WordCause>
    ensures value { result ≡ end_line (W.words words.now) }
    ensures still { IfOk result (λ answer. seconds_in answer ≡ 0) }
{
    let number = number_at(1, words)?;
    let code = code_at(2, words)?;
    end_at(3, words)?;
    Ok(Answer::End { number, code })
}

#[tactic(auto, unfolding(crate::specs::Results::timeout_line))]
fn timeout_line<W: Words>(words: &W) -> Result<Answer, WordCause>
    ensures value { result ≡ timeout_line (W.words words.now) }
    ensures still { IfOk result (λ answer. seconds_in answer ≡ 0) }
{
    let number = number_at(1, words)?;
    end_at(2, words)?;
    Ok(Answer::Timeout { number })
}

#[tactic(auto, unfolding(crate::specs::Results::lost_line))]
fn lost_line<W: Words>(names: &Names<'_>, words: &W) -> Result<Answer, WordCause>
    ensures value { result ≡ lost_line names.now (W.words words.now) }
    ensures still { IfOk result (λ answer. seconds_in answer ≡ 0) }
{
    let node = node_at(names, 1, words)?;
    end_at(2, words)?;
    Ok(Answer::Lost { node })
}

#[tactic(auto, unfolding(crate::specs::Results::up_line))]
fn up_line<W: Words>(names: &Names<'_>, words: &W) -> Result<Answer, WordCause>
    ensures value { result ≡ up_line names.now (W.words words.now) }
    ensures still { IfOk result (λ answer. seconds_in answer ≡ 0) }
{
    let node = node_at(names, 1, words)?;
    end_at(2, words)?;
    Ok(Answer::Up { node })
}

#[tactic(auto, unfolding(crate::specs::Results::quorum_answer))]
fn quorum_line<W: Words>(words: &W) -> Result<Answer, WordCause>
    ensures value { result ≡ quorum_answer (W.words words.now) }
    ensures still { IfOk result (λ answer. seconds_in answer ≡ 0) }
{
    let yes = yes_at(1, words)?;
    end_at(2, words)?;
    Ok(Answer::Quorum { yes })
}

/// Takes seconds that end before the moment 1,099,511,627,776.
fn in_time(moment: u64, seconds: u64) -> Result<(), WordCause>
    requires moment { moment < 2 ^ 40 }
    requires seconds { seconds < 2 ^ 40 }
    ensures value { result ≡ in_time moment seconds }
    ensures within { IfOk result (λ _. moment + seconds < 2 ^ 40) }
{
    if moment + seconds < 1 << 40 {
        Ok(())
    } else {
        Err(WordCause::BadValue)
    }
}

#[tactic(auto, unfolding(crate::specs::Results::wait_line))]
fn wait_line<W: Words>(moment: u64, words: &W) -> Result<Answer, WordCause>
    requires { moment < 2 ^ 40 }
    ensures value { result ≡ wait_line moment (W.words words.now) }
    ensures within { IfOk result (λ answer. moment + seconds_in answer < 2 ^ 40) }
{
    let seconds = seconds_at(1, words)?;
    in_time(moment, seconds)?;
    end_at(2, words)?;
    Ok(Answer::Wait { seconds })
}

#[tactic(auto, unfolding(crate::specs::Results::report_line))]
fn report_line<W: Words>(names: &Names<'_>, words: &W) -> Result<Answer, WordCause>
    ensures value { result ≡ report_line names.now (W.words words.now) }
    ensures still { IfOk result (λ answer. seconds_in answer ≡ 0) }
{
    let node = node_at(names, 1, words)?;
    let leaf = leaf_at(names, 2, words)?;
    let interval_ms = number_at(3, words)?;
    let code = code_at(4, words)?;
    end_at(5, words)?;
    Ok(Answer::Report {
        node,
        leaf,
        interval_ms,
        code,
    })
}

fn answer_as<W: Words>(
    names: &Names<'_>,
    moment: u64,
    form: ResultWord,
    words: &W,
) -> Result<Answer, WordCause>
    requires moment { moment < 2 ^ 40 }
    ensures value { result ≡ answer_as names.now moment form (W.words words.now) }
    ensures within { IfOk result (λ answer. moment + seconds_in answer < 2 ^ 40) }
{
    match form {
        ResultWord::End => end_line(words),
        ResultWord::Timeout => timeout_line(words),
        ResultWord::Lost => lost_line(names, words),
        ResultWord::Up => up_line(names, words),
        ResultWord::Quorum => quorum_line(words),
        ResultWord::Wait => wait_line(moment, words),
        ResultWord::Report => report_line(names, words),
    }
}

/// The answer that the words of a result line give, which is taken at a moment in seconds, or the cause of its leftmost
/// faulty word. The lines are those of `read_result`. It asks for a moment below 2^40.
#[tactic(auto, unfolding(crate::specs::Results::answer_of))]
pub fn answer_of<W: Words>(names: &Names<'_>, moment: u64, words: &W) -> Result<Answer, WordCause>
    requires moment { moment < 2 ^ 40 }
    ensures value { result ≡ answer_of names.now moment (W.words words.now) }
    ensures within { IfOk result (λ answer. moment + seconds_in answer < 2 ^ 40) }
{
    let first = word_at(0, words)?;
    let form = result_word(first)?;
    answer_as(names, moment, form, words)
}
