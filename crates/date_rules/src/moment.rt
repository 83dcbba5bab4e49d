ghost use Rattle.std.specs.Prelude.{◌≡◌, ◌*◌, pos, neg_ℤ, IfSome};
ghost use Rattle.jiff_core.specs.Calendar.{IsWithin};
ghost use Rattle.date_rules.specs.Inner.Digits.{HasTwoDigits};
ghost use Rattle.date_rules.specs.Instant.{clock_seconds, midnight, is_time, time_of_day, offset_seconds, offset, after_midnight, instant};

use crate::calendar::day_number;
use crate::digits::{has_form, two_digits};

/// The moment that a text says, in seconds since 1970-01-01T00:00:00Z, if it says one.
///
/// A text is a day `YYYY-MM-DD` of the years 0001 to 9999, which means its midnight; or a day, then `T` or a space, then a time `HH:MM:SS`
/// up to 23:59:59, then nothing or `Z` for UTC, or an offset `+HH:MM` or `-HH:MM` up to 23:59.
pub fn instant(text: &[u8]) -> Option<i64>
    ensures { result ≡ instant text.now }
{
    let (day, rest) = text.split_at_checked(10)?;
    let start = midnight(day)?;
    let seconds = after_midnight(rest)?;
    Some(start + seconds)
}

fn midnight(text: &[u8]) -> Option<i64>
    ensures value { result ≡ midnight text.now }
    // No day number of the library is further from 0 than this.
    ensures bound { IfSome result (IsWithin (86400 * 4371587)) }
{
    if !has_form(b"0000-00-00", text) {
        return None;
    }
    let year = 100 * u16::from(two_digits(text, 0)) + u16::from(two_digits(text, 2));
    let number = day_number(year, two_digits(text, 5), two_digits(text, 8))?;
    Some(i64::from(number) * 86_400)
}

fn after_midnight(text: &[u8]) -> Option<i64>
    ensures value { result ≡ after_midnight text.now }
    ensures bound { IfSome result (IsWithin 172800) }
{
    if text.is_empty() {
        return Some(0);
    }
    let (time, zone) = text.split_at_checked(9)?;
    let seconds = time_of_day(time)?;
    let ahead = offset(zone)?;
    Some(seconds - ahead)
}

fn is_time(text: &[u8]) -> bool
    ensures { result ≡ is_time text.now }
{
    has_form(b"T00:00:00", text) || has_form(b" 00:00:00", text)
}

fn time_of_day(text: &[u8]) -> Option<i64>
    ensures value { result ≡ time_of_day text.now }
    ensures bound { IfSome result (IsWithin 86400) }
{
    if !is_time(text) {
        return None;
    }
    let (hours, minutes, seconds) = (
        two_digits(text, 1),
        two_digits(text, 4),
        two_digits(text, 7),
    );
    if hours < 24 && minutes < 60 && seconds < 60 {
        Some(seconds_of(hours, minutes, seconds))
    } else {
        None
    }
}

fn width(text: &[u8]) -> Option<i64>
    requires hours { HasTwoDigits text.now 1 }
    requires minutes { HasTwoDigits text.now 4 }
    ensures value { result ≡ offset_seconds text.now }
    ensures bound { IfSome result (IsWithin 86400) }
{
    let (hours, minutes) = (two_digits(text, 1), two_digits(text, 4));
    if hours < 24 && minutes < 60 {
        Some(seconds_of(hours, minutes, 0))
    } else {
        None
    }
}

fn offset(text: &[u8]) -> Option<i64>
    ensures value { result ≡ offset text.now }
    ensures bound { IfSome result (IsWithin 86400) }
{
    if text.is_empty() || text == b"Z".as_slice() {
        return Some(0);
    }
    if has_form(b"+00:00", text) {
        return width(text);
    }
    if has_form(b"-00:00", text) {
        let ahead = width(text)?;
        return Some(-ahead);
    }
    None
}

fn seconds_of(hours: u8, minutes: u8, seconds: u8) -> i64
    ensures { result ≡ pos (clock_seconds hours minutes seconds) }
{
    3600 * i64::from(hours) + 60 * i64::from(minutes) + i64::from(seconds)
}
