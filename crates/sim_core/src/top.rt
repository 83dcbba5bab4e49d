ghost use Rattle.std.specs.Prelude.{◌≡◌, ◌↔◌, ◌+◌, ◌<◌, false, true, Some, None, IfSome, length, map};
ghost use Rattle.std.specs.String.{string_bytes};
ghost use Rattle.cluster_io.specs.Streams.{Bears, Rose, TakesAtMost, TakesCount};
ghost use Rattle.sim_core.specs.Answers.{WordAnswers, IsCompleteAnswer, IsEarly, IsStatusOf, ReadsLive, ReadsNothing, ReadsSomething, ReadsWhole, reads_some};
ghost use Rattle.input_reading.specs.Reading.{most_bytes};
ghost use Rattle.sim_core.specs.Headline.{WritesASafeRun};
ghost use Rattle.sim_core.specs.Commands.{intake, nothing, whole_input};
ghost use Rattle.sim_core.specs.Words.{command_of};

use crate::audit_word::AuditWord;
use crate::check::CheckWord;
use crate::gen_summary::with_case;
use crate::graph::GraphWord;
use crate::help::{HELP, VERSION};
use crate::input_word::with_input;
use crate::live::replay;
use crate::losses::SurviveWord;
use crate::own_text::tell;
use crate::scores::ScoresWord;
use crate::status::Status;
use crate::text_word::Reading;
use crate::why::WhyWord;
use crate::words::{Command, command_of};
use crate::world::WorldWord;
use cluster_io::{Sink, Source};
use std::alloc::Global;

/// Carries out a word. The clauses are those of `run` for the words that ask for it.
fn carry_out<S: Source, W: Sink>(alloc: Global, word: Command, src: &mut S, out: &mut W) -> Status
    requires { reads_some (intake word) ≡ true → S.ended src.old ≡ false }
    ensures answers { WordAnswers word (S.left src.old) (S.left src.new) (W.written out.old) (W.written out.new) result }
    ensures status { IsStatusOf word result }
    ensures reads_nothing { intake word ≡ nothing → src.new ≡ src.old }
    ensures early { intake word ≡ whole_input → IsEarly result → out.new ≡ out.old }
    ensures taken { intake word ≡ whole_input → TakesAtMost (most_bytes + 1) (S.left src.old) (S.left src.new) }
    ensures too_large { intake word ≡ whole_input → result ≡ Status.TooLarge
        → TakesCount (most_bytes + 1) (S.left src.old) (S.left src.new) }
    ensures nothing_of_too_large { intake word ≡ whole_input → IfSome (S.left src.old)
        (λ input. most_bytes < length input → out.new ≡ out.old) }

    ensures reads { Bears S.counts_only_failures (result ≡ Status.ReadFault) (S.faults src.old) (S.faults src.new) }
    ensures writes { Bears W.counts_only_failures (result ≡ Status.WriteFault) (W.faults out.old) (W.faults out.new) }
{
    match word {
        Command::Check => with_input(alloc, &Reading(CheckWord), src, out),
        Command::Scores => with_input(alloc, &Reading(ScoresWord), src, out),
        Command::Why => with_input(alloc, &Reading(WhyWord), src, out),
        Command::Graph => with_input(alloc, &Reading(GraphWord), src, out),
        Command::Survive => with_input(alloc, &Reading(SurviveWord), src, out),
        Command::Audit => with_input(alloc, &AuditWord, src, out),
        Command::Replay => replay(alloc, src, out),
        Command::Gen(number) => with_case(alloc, number, out),
        Command::World(number) => with_input(alloc, &Reading(WorldWord(number)), src, out),
        Command::Help => tell(out, HELP),
        Command::Version => tell(out, VERSION),
    }
}

/// Carries out what the words after the program's name ask for: reads `src`, writes to `out`, and answers how it ended. Of a
/// word that reads it asks for a source that hasn't ended, and it never reads past its end.
pub fn run<S: Source, W: Sink>(alloc: Global, words: &[String], src: &mut S, out: &mut W) -> Status
    requires { ReadsSomething (command_of (map string_bytes words.now)) → S.ended src.old ≡ false }

    // Where the source tells what it reads: what the answer says of the input, of what was read and of what was written; and what it has to be.
    ensures answers { IfSome (command_of (map string_bytes words.now))
        (λ word. WordAnswers word (S.left src.old) (S.left src.new) (W.written out.old) (W.written out.new) result) }
    ensures complete { IfSome (command_of (map string_bytes words.now))
        (λ word. ¬ Rose (S.faults src.old) (S.faults src.new) → ¬ Rose (W.faults out.old) (W.faults out.new)
        → IsCompleteAnswer word (S.left src.old) result) }

    // What `replay` has written, whatever its status: the lines of the one run of its input, or a front of them; and that run is safe.
    // Where nothing was written, it speaks of no run.
    ensures promise { ReadsLive (command_of (map string_bytes words.now))
        → IfSome (S.left src.old) (λ input. WritesASafeRun input (W.written out.old) (W.written out.new) result) }

    // What holds whatever the source and the sink tell. Status 2 comes when the words are no form, and only then; it leaves both as they were.
    ensures usage { (result ≡ Status.Usage) ↔ (command_of (map string_bytes words.now) ≡ None) }
    ensures nothing_without_form { result ≡ Status.Usage → out.new ≡ out.old }
    ensures status { IfSome (command_of (map string_bytes words.now)) (λ word. IsStatusOf word result) }
    ensures reads_nothing { ReadsNothing (command_of (map string_bytes words.now)) → src.new ≡ src.old }

    // An input that isn't read to its end within its size gives no text, nor does one for which memory runs out. Whatever the status, one byte past that size
    // is the last that is read.
    ensures early { ReadsWhole (command_of (map string_bytes words.now)) → IsEarly result → out.new ≡ out.old }
    ensures taken { ReadsWhole (command_of (map string_bytes words.now))
        → TakesAtMost (most_bytes + 1) (S.left src.old) (S.left src.new) }
    ensures too_large { ReadsWhole (command_of (map string_bytes words.now)) → result ≡ Status.TooLarge
        → TakesCount (most_bytes + 1) (S.left src.old) (S.left src.new) }
    ensures nothing_of_too_large { ReadsWhole (command_of (map string_bytes words.now))
        → IfSome (S.left src.old) (λ input. most_bytes < length input → out.new ≡ out.old) }

    // A fault comes only where its count rose, and the first failure ends the call: of a count that rises with failures alone a fault is one failure more, and any
    // other answer none.
    ensures reads { Bears S.counts_only_failures (result ≡ Status.ReadFault) (S.faults src.old) (S.faults src.new) }
    ensures writes { Bears W.counts_only_failures (result ≡ Status.WriteFault) (W.faults out.old) (W.faults out.new) }
{
    match command_of(words) {
        Some(word) => carry_out(alloc, word, src, out),
        None => Status::Usage,
    }
}
