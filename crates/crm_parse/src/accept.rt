//! Which values are taken.

ghost use Rattle.std.specs.Prelude.{◌≡◌, int_le, pos, false};
ghost use Rattle.std.specs.Option.{option_map_or};
ghost use Rattle.score.specs.ScoreText.{read_score};
ghost use Rattle.crm_parse.specs.Keys.{a_bool, a_count, a_policy, a_role, a_score, a_threshold, a_time, a_yes, but_not, not_false, not_true, only, runs_in, when};
ghost use Rattle.crm_parse.specs.Values.{bool_of};

use crate::values::{bool_of, count_of, role_of, time_of};
use crate::{ParseCause, RoleName};
use crm_lex::is;
use score::Score;

/// Takes a value where the test passes, and else refuses it for the cause.
pub fn when(test: bool, cause: ParseCause) -> Result<(), ParseCause>
    ensures { result ≡ when test cause }
{
    if test { Ok(()) } else { Err(cause) }
}

pub fn a_score(value: &[u8]) -> Result<(), ParseCause>
    ensures { result ≡ a_score value.now }
{
    when(Score::from_text(value).is_some(), ParseCause::BadScore)
}

fn is_threshold(value: &[u8]) -> bool
    ensures { result ≡ option_map_or (λ score. int_le (pos 0) score) (read_score value.now) false }
{
    match Score::from_text(value) {
        Some(score) => score.points >= 0,
        None => false,
    }
}

pub fn a_threshold(value: &[u8]) -> Result<(), ParseCause>
    ensures { result ≡ a_threshold value.now }
{
    when(is_threshold(value), ParseCause::BadValue)
}

pub fn a_time(value: &[u8]) -> Result<(), ParseCause>
    ensures { result ≡ a_time value.now }
{
    when(time_of(value).is_some(), ParseCause::BadTime)
}

pub fn a_role(value: &[u8]) -> Result<(), ParseCause>
    ensures { result ≡ a_role value.now }
{
    when(role_of(value).is_some(), ParseCause::BadValue)
}

pub fn a_bool(value: &[u8]) -> Result<(), ParseCause>
    ensures { result ≡ a_bool value.now }
{
    when(bool_of(value).is_some(), ParseCause::BadValue)
}

pub fn a_count(value: &[u8]) -> Result<(), ParseCause>
    ensures { result ≡ a_count value.now }
{
    when(count_of(value).is_some(), ParseCause::BadValue)
}

/// Takes this text alone.
pub fn only(text: &[u8], value: &[u8]) -> Result<(), ParseCause>
    ensures { result ≡ only text.now value.now }
{
    when(is(value, text), ParseCause::Unsupported)
}

fn but_not(refused: bool, value: Option<bool>) -> Result<(), ParseCause>
    ensures { result ≡ but_not refused value }
{
    match (refused, value) {
        (_, None) => Err(ParseCause::BadValue),
        (true, Some(true)) | (false, Some(false)) => Err(ParseCause::Unsupported),
        (true, Some(false)) | (false, Some(true)) => Ok(()),
    }
}

pub fn not_true(value: &[u8]) -> Result<(), ParseCause>
    ensures { result ≡ not_true value.now }
{
    but_not(true, bool_of(value))
}

pub fn not_false(value: &[u8]) -> Result<(), ParseCause>
    ensures { result ≡ not_false value.now }
{
    but_not(false, bool_of(value))
}

/// Takes any way to say yes.
pub fn a_yes(value: &[u8]) -> Result<(), ParseCause>
    ensures { result ≡ a_yes value.now }
{
    when(bool_of(value).unwrap_or(false), ParseCause::BadValue)
}

/// Takes what may be done without quorum.
pub fn a_policy(value: &[u8]) -> Result<(), ParseCause>
    ensures { result ≡ a_policy value.now }
{
    if is(value, b"stop") || is(value, b"ignore") || is(value, b"freeze") {
        Ok(())
    } else if is(value, b"demote") || is(value, b"suicide") || is(value, b"fence") {
        Err(ParseCause::Unsupported)
    } else {
        Err(ParseCause::BadValue)
    }
}

/// Takes a role in which an operation may run.
pub fn runs_in(role: Option<RoleName>) -> Result<(), ParseCause>
    ensures { result ≡ runs_in role }
{
    match role {
        None => Err(ParseCause::BadValue),
        Some(RoleName::Stopped) => Err(ParseCause::Unsupported),
        Some(RoleName::Started | RoleName::Promoted | RoleName::Unpromoted) => Ok(()),
    }
}
