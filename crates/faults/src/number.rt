ghost use Rattle.std.specs.Prelude.{◌≡◌, ◌≤◌, IfSome};
ghost use Rattle.std.specs.Char.{is_ascii_digit};
ghost use Rattle.std.specs.List.{list_all};
ghost use Rattle.faults.specs.Digits.{number_up_to};

use std::str;

fn are_digits(word: &[u8]) -> bool
    ensures { result ≡ list_all is_ascii_digit word.now }
{
    word.iter().all(|byte| byte.is_ascii_digit())
}

/// The number of digits, up to the greatest of 64 bits.
fn number_of(word: &[u8]) -> Option<u64>
    ensures { result ≡ number_up_to 18446744073709551615 word.now }
{
    if !are_digits(word) {
        return None;
    }
    match str::from_utf8(word) {
        Ok(digits) => digits.parse().ok(),
        Err(_) => None,
    }
}

/// The number that a word of decimal digits writes, if it is at most `most`. Leading zeros are allowed. None at any other byte, a sign
/// too, at an empty word, and at a greater number.
pub fn number_up_to(most: u64, word: &[u8]) -> Option<u64>
    ensures value { result ≡ number_up_to most word.now }
    ensures bound { IfSome result (λ number. number ≤ most) }
{
    let number = number_of(word)?;
    if number <= most { Some(number) } else { None }
}
