//! What the words of a value stand for.

ghost use Rattle.std.specs.Prelude.{◌≡◌};
ghost use Rattle.crm_parse.specs.Values.{action_of, bool_of, count_of, digits_before, kind_of, role_of, says, time_of, unit_of};

use crate::place::OpName;
use crate::{ActionWord, KindWord};
use faults::number_up_to;

const MOST_OF_A_COUNT: u64 = 1_000_000;

const MOST_MILLISECONDS: u64 = 4_294_967_295;

/// A role as values name it (Pacemaker Explained, "Promotable clones" and target-role).
#[derive(Clone, Copy, Debug, PartialEq, Eq)]
pub enum RoleName {
    Started,
    Promoted,
    Unpromoted,
    Stopped,
}

fn says(word: &[u8], text: &[u8]) -> bool
    ensures { result ≡ says word.now text.now }
{
    word.eq_ignore_ascii_case(text)
}

/// Whether a word means yes: `true`, `on`, `yes`, `y` or `1`; or no: `false`, `off`, `no`, `n` or `0`. ASCII case does not matter. None at
/// any other word.
pub fn bool_of(word: &[u8]) -> Option<bool>
    ensures { result ≡ bool_of word.now }
{
    if says(word, b"true")
        || says(word, b"on")
        || says(word, b"yes")
        || says(word, b"y")
        || says(word, b"1")
    {
        Some(true)
    } else if says(word, b"false")
        || says(word, b"off")
        || says(word, b"no")
        || says(word, b"n")
        || says(word, b"0")
    {
        Some(false)
    } else {
        None
    }
}

/// The role of a word: `Started`, `Promoted` or `Master`, `Unpromoted` or `Slave`, `Stopped`. ASCII case does not matter. None at any other
/// word.
pub fn role_of(word: &[u8]) -> Option<RoleName>
    ensures { result ≡ role_of word.now }
{
    if says(word, b"Started") {
        Some(RoleName::Started)
    } else if says(word, b"Promoted") || says(word, b"Master") {
        Some(RoleName::Promoted)
    } else if says(word, b"Unpromoted") || says(word, b"Slave") {
        Some(RoleName::Unpromoted)
    } else if says(word, b"Stopped") {
        Some(RoleName::Stopped)
    } else {
        None
    }
}

/// The kind of an order: `Mandatory`, `Optional` or `Serialize`. ASCII case does not matter. None at any other word.
pub fn kind_of(word: &[u8]) -> Option<KindWord>
    ensures { result ≡ kind_of word.now }
{
    if says(word, b"Mandatory") {
        Some(KindWord::Mandatory)
    } else if says(word, b"Optional") {
        Some(KindWord::Optional)
    } else if says(word, b"Serialize") {
        Some(KindWord::Serialize)
    } else {
        None
    }
}

/// The action of an order: `start`, `stop`, `promote` or `demote`. None at any other word.
pub fn action_of(word: &[u8]) -> Option<ActionWord>
    ensures { result ≡ action_of word.now }
{
    match OpName::from_word(word) {
        OpName::Start => Some(ActionWord::Start),
        OpName::Stop => Some(ActionWord::Stop),
        OpName::Promote => Some(ActionWord::Promote),
        OpName::Demote => Some(ActionWord::Demote),
        OpName::Monitor | OpName::Other => None,
    }
}

/// A count: digits of a value up to 1,000,000, and leading zeros are allowed. None at any other word.
pub fn count_of(word: &[u8]) -> Option<u32>
    ensures { result ≡ count_of word.now }
{
    let count = number_up_to(MOST_OF_A_COUNT, word)?;
    Some(count as u32)
}

/// The milliseconds of a unit of time: those of a second without a unit.
fn unit_of(word: &[u8]) -> Option<u32>
    ensures { result ≡ unit_of word.now }
{
    if word == b"".as_slice() || word == b"s".as_slice() || word == b"sec".as_slice() {
        Some(1_000)
    } else if word == b"ms".as_slice() || word == b"msec".as_slice() {
        Some(1)
    } else if word == b"m".as_slice() || word == b"min".as_slice() {
        Some(60_000)
    } else if word == b"h".as_slice() || word == b"hr".as_slice() {
        Some(3_600_000)
    } else {
        None
    }
}

fn digits_before(word: &[u8]) -> usize
    ensures value { result ≡ digits_before word.now }
{
    word.iter().take_while(|byte| byte.is_ascii_digit()).count()
}

/// A time in milliseconds: digits and one of `ms`, `msec`, `s`, `sec`, `m`, `min`, `h` and `hr`, or digits alone, which are seconds; up to
/// 4,294,967,295 ms. None at any other word.
pub fn time_of(word: &[u8]) -> Option<u32>
    ensures { result ≡ time_of word.now }
{
    let (digits, unit) = word.split_at_checked(digits_before(word))?;
    let number = number_up_to(MOST_MILLISECONDS, digits)?;
    let unit = unit_of(unit)?;
    (number as u32).checked_mul(unit)
}
