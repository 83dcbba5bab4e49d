ghost use Rattle.std.specs.Prelude.{◌≡◌};
ghost use Rattle.date_rules.specs.WholeNumber.{whole_number};

use std::str;

/// The whole number that a text writes, if it writes one: a sign or none, then digits, from -2^63 to 2^63 - 1.
pub fn whole_number(text: &[u8]) -> Option<i64>
    ensures { result ≡ whole_number text.now }
{
    match str::from_utf8(text) {
        Ok(text) => parsed(text),
        Err(_) => None,
    }
}

fn parsed(text: &str) -> Option<i64>
    ensures { result ≡ whole_number text.now }
{
    text.parse::<i64>().ok()
}
