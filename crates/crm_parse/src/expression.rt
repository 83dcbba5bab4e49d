//! The expression of a rule: tests that are joined.

ghost use Rattle.std.specs.Prelude.{◌≡◌, ◌≤◌, ◌<◌, ◌++◌, ◌∷◌, [], length, not, IfOk};
ghost use Rattle.faults.specs.Reading.{Reads};
ghost use Rattle.faults.specs.Inner.Reading.{GivesInLine};
ghost use Rattle.crm_parse.specs.Rules.{attribute_at, comparable, compare_of, comparison_of, date_at, date_test_at, date_test_of, date_test_text, dates_at, defined_at, end_date_at, end_text, expression_at, filled, is_number_kind, joined_alike, joiner_at, joiner_of, read_moment, noted_at, start_at, test_after, test_at, type_of, typed, untyped, with_all_tests, with_joined, with_test};

use crate::ParseCause;
use crate::accept::when;
use crate::fault::Stop;
use crate::reading::{after, cut_at, place_of, word_at};
use crm_lex::{Name, is};
use date_rules::{Compare, Kind, Test, instant, whole_number};
use faults::with;
use listed::Listed;
use std::alloc::Global;

/// An expression as far as it was read.
#[derive(Drop)]
pub struct Expression {
    /// Whether the tests are joined by `and`, and not by `or`, where there are two or more.
    pub joined: Option<bool>,
    pub tests: Listed<Test>,
    /// Its words, with `in_range` as `in`.
    pub words: Listed<Name>,
}

/// How a moment is tested.
#[derive(Clone, Copy)]
pub enum DateTest {
    Lt,
    Gt,
    In,
}

/// The next word, which is noted.
#[tactic(auto, unfolding(crate::specs::Rules::noted_at))]
fn noted_at<'a>(
    alloc: Global,
    noted: &mut Listed<Name>,
    words: &'a [Name],
) -> Result<(&'a Name, &'a [Name]), Stop>
    ensures read { GivesInLine (λ read. (read.0.now, noted.new, read.1.now)) result (noted_at noted.old words.now) }
    ensures shorter { IfOk result (λ read. length read.1.now < length words.now) }
{
    let (word, rest) = word_at(words)?;
    noted.push(Name::from_bytes(alloc, word.bytes())?)?;
    Ok((word, rest))
}

fn filled(name: &[u8]) -> Result<(), ParseCause>
    ensures { result ≡ filled name.now }
{
    when(!name.is_empty(), ParseCause::BadValue)
}

fn compare_of(word: &[u8]) -> Result<Compare, ParseCause>
    ensures { result ≡ compare_of word.now }
{
    if is(word, b"lt") {
        Ok(Compare::Lt)
    } else if is(word, b"gt") {
        Ok(Compare::Gt)
    } else if is(word, b"lte") {
        Ok(Compare::Lte)
    } else if is(word, b"gte") {
        Ok(Compare::Gte)
    } else if is(word, b"eq") {
        Ok(Compare::Eq)
    } else if is(word, b"ne") {
        Ok(Compare::Ne)
    } else {
        Err(ParseCause::BadValue)
    }
}

fn type_of(word: &[u8]) -> Result<Kind, ParseCause>
    ensures { result ≡ type_of word.now }
{
    if is(word, b"string") {
        Ok(Kind::Word)
    } else if is(word, b"number") || is(word, b"integer") {
        Ok(Kind::Number)
    } else if is(word, b"version") {
        Err(ParseCause::Unsupported)
    } else {
        Err(ParseCause::BadValue)
    }
}

#[tactic(auto, unfolding(crate::specs::Rules::untyped))]
fn untyped(word: &[u8]) -> Result<(Kind, Compare), ParseCause>
    ensures { result ≡ untyped word.now }
{
    Ok((Kind::Auto, compare_of(word)?))
}

#[tactic(auto, unfolding(crate::specs::Rules::typed))]
fn typed(kind: &[u8], word: &[u8]) -> Result<(Kind, Compare), ParseCause>
    ensures { result ≡ typed kind.now word.now }
{
    Ok((type_of(kind)?, compare_of(word)?))
}

fn comparison_of(word: &[u8]) -> Result<(Kind, Compare), ParseCause>
    ensures { result ≡ comparison_of word.now }
{
    match cut_at(b':', word) {
        Some((kind, word)) => typed(kind, word),
        None => untyped(word),
    }
}

/// Takes a value that can be compared so.
fn comparable(kind: Kind, value: &[u8]) -> Result<(), ParseCause>
    ensures { result ≡ comparable kind value.now }
{
    let is_number = matches!(kind, Kind::Number);
    when(
        !is_number || whole_number(value).is_some(),
        ParseCause::BadValue,
    )
}

/// `NAME [TYPE:]CMP VALUE`, after the name.
#[tactic(auto, unfolding(crate::specs::Rules::attribute_at))]
fn attribute_at<'a>(
    alloc: Global,
    name: &[u8],
    noted: &mut Listed<Name>,
    words: &'a [Name],
) -> Result<(Test, &'a [Name]), Stop>
    ensures read { GivesInLine (λ read. (read.0, noted.new, read.1.now)) result (attribute_at name.now noted.old words.now) }
    ensures shorter { IfOk result (λ read. length read.1.now ≤ length words.now) }
{
    filled(name)?;
    let (word, rest) = noted_at(alloc, noted, words)?;
    let (kind, compare) = comparison_of(word.bytes())?;
    let (value, rest) = noted_at(alloc, noted, rest)?;
    comparable(kind, value.bytes())?;
    let test = Test::Attribute {
        name: Name::from_bytes(alloc, name)?,
        compare,
        kind,
        value: Name::from_bytes(alloc, value.bytes())?,
    };
    Ok((test, rest))
}

/// `defined NAME` and `not_defined NAME`, after the first word.
#[tactic(auto, unfolding(crate::specs::Rules::defined_at))]
fn defined_at<'a>(
    alloc: Global,
    defined: bool,
    noted: &mut Listed<Name>,
    words: &'a [Name],
) -> Result<(Test, &'a [Name]), Stop>
    ensures read { GivesInLine (λ read. (read.0, noted.new, read.1.now)) result (defined_at defined noted.old words.now) }
    ensures shorter { IfOk result (λ read. length read.1.now ≤ length words.now) }
{
    let (name, rest) = noted_at(alloc, noted, words)?;
    filled(name.bytes())?;
    let name = Name::from_bytes(alloc, name.bytes())?;
    if defined {
        Ok((Test::Defined { name }, rest))
    } else {
        Ok((Test::NotDefined { name }, rest))
    }
}

fn date_test_of(word: &[u8]) -> Result<DateTest, ParseCause>
    ensures { result ≡ date_test_of word.now }
{
    if is(word, b"lt") {
        Ok(DateTest::Lt)
    } else if is(word, b"gt") {
        Ok(DateTest::Gt)
    } else if is(word, b"in") || is(word, b"in_range") {
        Ok(DateTest::In)
    } else if is(word, b"spec") {
        Err(ParseCause::Unsupported)
    } else {
        Err(ParseCause::BadValue)
    }
}

fn date_test_text(test: DateTest) -> &'static [u8]
    ensures { result.now ≡ date_test_text test }
{
    match test {
        DateTest::Lt => b"lt",
        DateTest::Gt => b"gt",
        DateTest::In => b"in",
    }
}

fn moment_of(text: &[u8]) -> Result<i64, ParseCause>
    ensures { result ≡ read_moment text.now }
{
    instant(text).ok_or(ParseCause::BadValue)
}

#[tactic(auto, unfolding(crate::specs::Rules::date_at))]
fn date_at<'a>(
    alloc: Global,
    noted: &mut Listed<Name>,
    words: &'a [Name],
) -> Result<(i64, &'a [Name]), Stop>
    ensures read { GivesInLine (λ read. (read.0, noted.new, read.1.now)) result (date_at noted.old words.now) }
    ensures shorter { IfOk result (λ read. length read.1.now ≤ length words.now) }
{
    let (word, rest) = noted_at(alloc, noted, words)?;
    let moment = moment_of(word.bytes())?;
    Ok((moment, rest))
}

/// `start=DATE`
#[tactic(auto, unfolding(crate::specs::Rules::start_at))]
fn start_at<'a>(
    alloc: Global,
    noted: &mut Listed<Name>,
    words: &'a [Name],
) -> Result<(i64, &'a [Name]), Stop>
    ensures read { GivesInLine (λ read. (read.0, noted.new, read.1.now)) result (start_at noted.old words.now) }
    ensures shorter { IfOk result (λ read. length read.1.now ≤ length words.now) }
{
    let (word, rest) = noted_at(alloc, noted, words)?;
    let text = after(b"start=", word.bytes()).ok_or(ParseCause::BadValue)?;
    let moment = moment_of(text)?;
    Ok((moment, rest))
}

/// The date of `end=DATE`. A duration in its place isn't supported.
fn end_text(word: &[u8]) -> Result<&[u8], ParseCause>
    ensures { Reads (λ text. text.now) result (end_text word.now) }
{
    match after(b"end=", word) {
        Some(text) => Ok(text),
        None => {
            if place_of(b'=', word).is_some() {
                Err(ParseCause::Unsupported)
            } else {
                Err(ParseCause::BadValue)
            }
        }
    }
}

/// `end=DATE`
#[tactic(auto, unfolding(crate::specs::Rules::end_date_at))]
fn end_at<'a>(
    alloc: Global,
    noted: &mut Listed<Name>,
    words: &'a [Name],
) -> Result<(i64, &'a [Name]), Stop>
    ensures read { GivesInLine (λ read. (read.0, noted.new, read.1.now)) result (end_date_at noted.old words.now) }
    ensures shorter { IfOk result (λ read. length read.1.now ≤ length words.now) }
{
    let (word, rest) = noted_at(alloc, noted, words)?;
    let text = end_text(word.bytes())?;
    let moment = moment_of(text)?;
    Ok((moment, rest))
}

/// The dates of a test.
#[tactic(auto, unfolding(crate::specs::Rules::dates_at))]
fn dates_at<'a>(
    alloc: Global,
    test: DateTest,
    noted: &mut Listed<Name>,
    words: &'a [Name],
) -> Result<(Test, &'a [Name]), Stop>
    ensures read { GivesInLine (λ read. (read.0, noted.new, read.1.now)) result (dates_at test noted.old words.now) }
    ensures shorter { IfOk result (λ read. length read.1.now ≤ length words.now) }
{
    match test {
        DateTest::Lt => {
            let (at, rest) = date_at(alloc, noted, words)?;
            Ok((Test::Before { at }, rest))
        }
        DateTest::Gt => {
            let (at, rest) = date_at(alloc, noted, words)?;
            Ok((Test::After { at }, rest))
        }
        DateTest::In => {
            let (start, rest) = start_at(alloc, noted, words)?;
            let (end, rest) = end_at(alloc, noted, rest)?;
            Ok((Test::Within { start, end }, rest))
        }
    }
}

/// `date lt DATE`, `date gt DATE` and `date in start=DATE end=DATE`, after the first word.
#[tactic(auto, unfolding(crate::specs::Rules::date_test_at))]
fn date_test_at<'a>(
    alloc: Global,
    noted: &mut Listed<Name>,
    words: &'a [Name],
) -> Result<(Test, &'a [Name]), Stop>
    ensures read { GivesInLine (λ read. (read.0, noted.new, read.1.now)) result (date_test_at noted.old words.now) }
    ensures shorter { IfOk result (λ read. length read.1.now ≤ length words.now) }
{
    let (word, rest) = word_at(words)?;
    let test = date_test_of(word.bytes())?;
    noted.push(Name::from_bytes(alloc, date_test_text(test))?)?;
    dates_at(alloc, test, noted, rest)
}

/// A test, by its first word.
fn test_after<'a>(
    alloc: Global,
    word: &[u8],
    noted: &mut Listed<Name>,
    words: &'a [Name],
) -> Result<(Test, &'a [Name]), Stop>
    ensures read { GivesInLine (λ read. (read.0, noted.new, read.1.now)) result (test_after word.now noted.old words.now) }
    ensures shorter { IfOk result (λ read. length read.1.now ≤ length words.now) }
{
    if is(word, b"date") {
        date_test_at(alloc, noted, words)
    } else if is(word, b"defined") {
        defined_at(alloc, true, noted, words)
    } else if is(word, b"not_defined") {
        defined_at(alloc, false, noted, words)
    } else {
        attribute_at(alloc, word, noted, words)
    }
}

#[tactic(auto, unfolding(crate::specs::Rules::test_at))]
fn test_at<'a>(
    alloc: Global,
    noted: &mut Listed<Name>,
    words: &'a [Name],
) -> Result<(Test, &'a [Name]), Stop>
    ensures read { GivesInLine (λ read. (read.0, noted.new, read.1.now)) result (test_at noted.old words.now) }
    ensures shorter { IfOk result (λ read. length read.1.now < length words.now) }
{
    let (word, rest) = noted_at(alloc, noted, words)?;
    test_after(alloc, word.bytes(), noted, rest)
}

/// Reads one more test.
#[tactic(auto, unfolding(crate::specs::Rules::with_test))]
fn add_test<'a>(
    alloc: Global,
    expression: &mut Expression,
    words: &'a [Name],
) -> Result<&'a [Name], Stop>
    ensures read { GivesInLine (λ rest. (expression.new, rest.now)) result (with_test expression.old words.now) }
    ensures shorter { IfOk result (λ rest. length rest.now < length words.now) }
{
    let (test, rest) = test_at(alloc, &mut expression.words, words)?;
    expression.tests.push(test)?;
    Ok(rest)
}

/// Whether a word joins tests, by `and` where the answer is true, else by `or`.
fn joiner_of(word: &[u8]) -> Option<bool>
    ensures { result ≡ joiner_of word.now }
{
    if is(word, b"and") {
        Some(true)
    } else if is(word, b"or") {
        Some(false)
    } else {
        None
    }
}

fn joined_alike(joined: Option<bool>, all: bool) -> Result<(), ParseCause>
    ensures { result ≡ joined_alike joined all }
{
    match joined {
        None => Ok(()),
        Some(true) => when(all, ParseCause::Unsupported),
        Some(false) => when(!all, ParseCause::Unsupported),
    }
}

/// How the next word joins tests, if it does.
#[tactic(auto, unfolding(crate::specs::Rules::joiner_at))]
fn joiner_at(words: &[Name]) -> Option<bool>
    ensures { result ≡ joiner_at words.now }
{
    match words {
        [word, ..] => joiner_of(word.bytes()),
        [] => None,
    }
}

/// Reads one more test, after the word that joins it.
#[tactic(auto, unfolding(crate::specs::Rules::with_joined))]
fn add_joined<'a>(
    alloc: Global,
    expression: &mut Expression,
    all: bool,
    words: &'a [Name],
) -> Result<&'a [Name], Stop>
    ensures read { GivesInLine (λ rest. (expression.new, rest.now)) result (with_joined expression.old all words.now) }
    ensures shorter { IfOk result (λ rest. length rest.now < length words.now) }
{
    joined_alike(expression.joined, all)?;
    expression.joined = Some(all);
    let (_, rest) = noted_at(alloc, &mut expression.words, words)?;
    add_test(alloc, expression, rest)
}

/// Reads the tests that are joined.
fn add_tests<'a>(
    alloc: Global,
    expression: &mut Expression,
    words: &'a [Name],
) -> Result<&'a [Name], Stop>
    ensures read { GivesInLine (λ rest. (expression.new, rest.now)) result (with_all_tests expression.old words.now) }
    ensures shorter { IfOk result (λ rest. length rest.now ≤ length words.now) }
{
    let mut rest = words;
    while let Some(all) = joiner_at(rest) {
        rest = add_joined(alloc, expression, all, rest)?;
    }
    Ok(rest)
}

/// An expression.
#[tactic(auto, unfolding(crate::specs::Rules::expression_at))]
pub fn expression_at(alloc: Global, words: &[Name]) -> Result<(Expression, &[Name]), Stop>
    ensures read { GivesInLine (λ read. (read.0, read.1.now)) result (expression_at words.now) }
    ensures shorter { IfOk result (λ read. length read.1.now ≤ length words.now) }
{
    let mut expression = Expression {
        joined: None,
        tests: Listed::new(alloc),
        words: Listed::new(alloc),
    };
    let rest = add_test(alloc, &mut expression, words);
    let (mut expression, rest) = with(expression, rest)?;
    let rest = add_tests(alloc, &mut expression, rest);
    with(expression, rest)
}
