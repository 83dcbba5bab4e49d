ghost use Rattle.std.specs.Prelude.{◌≡◌, ◌<◌, ◌^◌, IfOk, length, string_bytes};
ghost use Rattle.crm_lex.specs.Reading.{reads};
ghost use Rattle.lex_bench.specs.Counting.{report, words_in};

use crm_lex::{LexFault, Line, lex_name, logical_lines};
use std::alloc::{AllocError, Global};

/// How many words the lines have together.
fn word_count(lines: &[Line]) -> usize
    requires { words_in lines.now < 2 ^ 64 }
    ensures { result ≡ words_in lines.now }
{
    lines.iter().map(|line| line.words.len()).sum()
}

/// What is printed of a text: how many lines with words it has and how many words these have together, or the line of its first fault and the
/// cause. (Rule of this project.)
pub fn report_of(alloc: Global, bytes: &[u8]) -> Result<String, AllocError>
    requires { length bytes.now < 2 ^ 32 }
    ensures { IfOk result (λ text. string_bytes text ≡ report (reads bytes.now)) }
{
    match logical_lines(alloc, bytes) {
        Ok(lines) => {
            let words = word_count(&lines);
            format!(in alloc; "{} lines, {words} words", lines.len())
        }
        Err(LexFault::At { line, cause }) => {
            let name = lex_name(cause);
            format!(in alloc; "line {line}: {name}")
        }
        Err(LexFault::NoMemory) => Err(AllocError),
    }
}
