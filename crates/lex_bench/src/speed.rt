ghost use Rattle.std.specs.Prelude.{◌≡◌, ◌<◌, ◌^◌, IfOk, string_bytes};
ghost use Rattle.std.specs.List.{list_any};
ghost use Rattle.lex_bench.specs.Counting.{is_time_word, speed};

use std::alloc::{AllocError, Global};

/// How often a text is cut where the time is taken.
pub const PASSES: u32 = 5;

/// One of the words is `time`.
pub fn asks_for_time(words: &[String]) -> bool
    ensures { result ≡ list_any (λ word. is_time_word (string_bytes word)) words.now }
{
    words.iter().any(|word| word.as_str() == "time")
}

/// What is printed of the time, in nanoseconds, that all passes over a text of so many bytes took: its bytes, and how many are cut in a second,
/// rounded down. No time counts as one nanosecond. (Rule of this project.)
pub fn speed_line(alloc: Global, bytes: usize, nanos: u128) -> Result<String, AllocError>
    requires { bytes < 2 ^ 32 }
    ensures { IfOk result (λ text. string_bytes text ≡ speed bytes nanos) }
{
    let a_second = bytes as u128 * PASSES as u128 * 1_000_000_000 / nanos.max(1);
    format!(in alloc; "{bytes} bytes: {a_second} bytes a second")
}
