//! What one logical line says where an answer is due.

ghost use Rattle.std.specs.Prelude.{◌≡◌, ◌≢◌, ◌+◌, ◌<◌, ◌≤◌, ◌^◌, List, ℕ, length, IfErr};
ghost use Rattle.crm_lex.specs.RawLines.{physical_lines};
ghost use Rattle.crm_lex.specs.Reading.{kept};
ghost use Rattle.faults.specs.declared.fault.Fault.TheVariants as found;
ghost use Rattle.live_run.specs.LineSays.{answer_says, due_line_says, refused_for, words_say};
ghost use Rattle.live_run.specs.Inner.LineFits.{SaidFits};
ghost use Rattle.live_run.specs.declared.line_stop.LineCause.TheVariants as of_line;

use crate::line_stop::{LineCause, LineStop};
use crate::place::Place;
use cluster_types::Answer;
use crm_lex::{LexFault, WordBuf, lex_one};
use input_reading::{ResultFault, read_result};
use names::Names;

/// What a logical line says.
#[derive(Clone, Copy)]
pub(crate) enum Said {
    /// It has no words.
    Nothing,
    Answer(Answer),
    /// It isn't read.
    Stop(LineStop),
}

/// Why a line is refused that can't be cut into words.
fn refused_words(fault: LexFault) -> LineStop
    requires { fault ≢ found.NoMemory }
    ensures { result ≡ refused_for of_line.Words fault }
{
    match fault {
        LexFault::At { line, cause } => LineStop::Refused {
            line,
            cause: LineCause::Words(cause),
        },
        LexFault::NoMemory => unreachable!(),
    }
}

/// Why a line is refused whose words are no answer.
fn refused_form(fault: ResultFault) -> LineStop
    requires { fault ≢ found.NoMemory }
    ensures { result ≡ refused_for of_line.Form fault }
{
    match fault {
        ResultFault::At { line, cause } => LineStop::Refused {
            line,
            cause: LineCause::Form(cause),
        },
        ResultFault::NoMemory => unreachable!(),
    }
}

/// What a line says of which this was read.
fn answer_says(read: Result<Answer, ResultFault>) -> Said
    requires { IfErr read (λ fault. fault ≢ found.NoMemory) }
    ensures { result ≡ answer_says read }
{
    match read {
        Ok(answer) => Said::Answer(answer),
        Err(fault) => Said::Stop(refused_form(fault)),
    }
}

/// What the words of a line say, whose first physical line has this number.
fn words_say(names: &Names<'_>, place: Place, line: u32, words: &WordBuf) -> Said
    requires moment { place.moment < 2 ^ 40 }
    requires line { place.line ≡ line }
    ensures says { (all : List (List ℕ)) → words.now ≡ kept all → result ≡ words_say names.now place all }
    ensures fits { SaidFits place result }
{
    if words.count() == 0 {
        return Said::Nothing;
    }
    answer_says(read_result(names, place.moment, place.before, line, words))
}

/// What the bytes of a line say, whose first physical line has this number. The buffer then has its words. It takes no
/// memory.
pub(crate) fn due_line_says(
    names: &Names<'_>,
    place: Place,
    line: u32,
    raw: &[u8],
    words: &mut WordBuf,
) -> Said
    requires moment { place.moment < 2 ^ 40 }
    requires line { place.line ≡ line }
    requires numbers { line + length (physical_lines raw.now) ≤ 2 ^ 32 }
    ensures says { result ≡ due_line_says names.now place raw.now }
    ensures fits { SaidFits place result }
{
    match lex_one(line, raw, words) {
        Ok(()) => words_say(names, place, line, words),
        Err(fault) => Said::Stop(refused_words(fault)),
    }
}
