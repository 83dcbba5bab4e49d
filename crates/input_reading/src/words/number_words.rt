//! The numbers that words write: digits, with leading zeros or without, of a value in a range (rule of this project). None at any
//! other word.

ghost use Rattle.std.specs.Prelude.{◌≡◌, ◌<◌, ◌^◌, IfSome};
ghost use Rattle.input_reading.specs.Numbers.{read_exit_code, read_interval, read_action_number, read_seconds};

use faults::number_up_to;

const MOST_SECONDS: u64 = 1_099_511_627_775;

const MOST_MILLISECONDS: u64 = 4_294_967_295;

const LAST_NUMBER: u64 = 4_294_967_295;

const LAST_CODE: u64 = 255;

/// Seconds, below 1,099,511,627,776.
pub fn seconds_of(word: &[u8]) -> Option<u64>
    ensures value { result ≡ read_seconds word.now }
    ensures range { IfSome result (λ seconds. seconds < 2 ^ 40) }
{
    number_up_to(MOST_SECONDS, word)
}

/// An interval of up to 4,294,967,295 milliseconds.
pub fn interval_of(word: &[u8]) -> Option<u32>
    ensures { result ≡ read_interval word.now }
{
    let interval = number_up_to(MOST_MILLISECONDS, word)?;
    Some(interval as u32)
}

/// The number of an action, from 1 to 4,294,967,295.
pub fn number_of(word: &[u8]) -> Option<u32>
    ensures { result ≡ read_action_number word.now }
{
    let number = number_up_to(LAST_NUMBER, word)?;
    if number == 0 {
        None
    } else {
        Some(number as u32)
    }
}

/// An exit code, from 0 to 255.
pub fn code_of(word: &[u8]) -> Option<u8>
    ensures { result ≡ read_exit_code word.now }
{
    let code = number_up_to(LAST_CODE, word)?;
    Some(code as u8)
}
