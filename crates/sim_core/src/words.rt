ghost use Rattle.std.specs.Prelude.{◌≡◌, map};
ghost use Rattle.std.specs.String.{string_bytes};
ghost use Rattle.sim_core.specs.Words.{case_number, command_of, two_words_command, word_command};

use faults::number_up_to;

/// What the words after the program's name ask for.
#[derive(Clone, Copy)]
pub enum Command {
    Check,
    Scores,
    Why,
    Graph,
    Survive,
    Audit,
    Replay,
    /// The run of the generated case of this number, in numbers.
    Gen(u32),
    /// The run in the simulated cluster of this number.
    World(u32),
    Help,
    Version,
}

fn one_word(word: &str) -> Option<Command>
    ensures { result ≡ word_command word.now }
{
    match word {
        "check" => Some(Command::Check),
        "scores" => Some(Command::Scores),
        "why" => Some(Command::Why),
        "graph" => Some(Command::Graph),
        "survive" => Some(Command::Survive),
        "audit" => Some(Command::Audit),
        "replay" => Some(Command::Replay),
        "--help" => Some(Command::Help),
        "--version" => Some(Command::Version),
        _ => None,
    }
}

/// The number of a case or of a simulated cluster.
fn case_number(word: &str) -> Option<u32>
    ensures { result ≡ case_number word.now }
{
    let digits = word.as_bytes();
    if digits.len() > 1 && digits[0] == b'0' {
        return None;
    }
    let number = number_up_to(4_294_967_295, digits)?;
    Some(number as u32)
}

fn two_words(word: &str, other: &str) -> Option<Command>
    ensures { result ≡ two_words_command word.now other.now }
{
    match word {
        "gen" => case_number(other).map(Command::Gen),
        "world" => case_number(other).map(Command::World),
        _ => None,
    }
}

/// The command of these words. None when they are none of the forms, and only then.
pub fn command_of(words: &[String]) -> Option<Command>
    ensures { result ≡ command_of (map string_bytes words.now) }
{
    match words {
        [word] => one_word(word.as_str()),
        [word, other] => two_words(word.as_str(), other.as_str()),
        _ => None,
    }
}
