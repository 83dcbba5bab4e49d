//! `rule [$id=ID] [$role=ROLE or role=ROLE] SCORE: TEST`, of a location

ghost use Rattle.std.specs.Prelude.{◌≡◌, ◌≤◌, ◌<◌, [], length, IfOk};
ghost use Rattle.std.specs.Option.{option_copied};
ghost use Rattle.crm_parse.specs.Location.{all_of, either_at, rule_at, rule_id_at, rule_role_at, rule_score_of, some_role, with_rule, with_rules};
ghost use Rattle.faults.specs.Reading.{Reads};
ghost use Rattle.faults.specs.Inner.Reading.{GivesInLine};

use crate::accept::when;
use crate::expression::expression_at;
use crate::fault::Stop;
use crate::reading::{after, prefixed_at, rule_role_of, score_of, some_name, word_at};
use crate::{ParseCause, RoleWord, RuleForm};
use crm_lex::{Name, is};
use date_rules::Rule;
use faults::with;
use listed::Listed;
use score::Score;
use std::alloc::Global;

/// A role where one is written.
pub fn some_role(word: Option<&[u8]>) -> Result<Option<RoleWord>, ParseCause>
    ensures { result ≡ some_role (option_copied word.entry) }
{
    match word {
        Some(word) => {
            let role = rule_role_of(word)?;
            Ok(Some(role))
        }
        None => Ok(None),
    }
}

#[tactic(auto, unfolding(crate::specs::Location::rule_id_at))]
fn rule_id_at(alloc: Global, words: &[Name]) -> Result<(Option<Name>, &[Name]), Stop>
    ensures read { GivesInLine (λ read. (read.0, read.1.now)) result (rule_id_at words.now) }
    ensures shorter { IfOk result (λ read. length read.1.now ≤ length words.now) }
{
    let (id, rest) = prefixed_at(b"$id=", words);
    Ok((some_name(alloc, id)?, rest))
}

fn either_at(words: &[Name]) -> (Option<&[u8]>, &[Name])
    ensures read { (option_copied result.0, result.1.now) ≡ either_at words.now }
    ensures shorter { length result.1.now ≤ length words.now }
{
    match prefixed_at(b"$role=", words) {
        (Some(role), rest) => (Some(role), rest),
        (None, _) => prefixed_at(b"role=", words),
    }
}

#[tactic(auto, unfolding(crate::specs::Location::rule_role_at))]
fn rule_role_at(words: &[Name]) -> Result<(Option<RoleWord>, &[Name]), ParseCause>
    ensures read { Reads (λ read. (read.0, read.1.now)) result (rule_role_at words.now) }
    ensures shorter { IfOk result (λ read. length read.1.now ≤ length words.now) }
{
    let (role, rest) = either_at(words);
    Ok((some_role(role)?, rest))
}

fn rule_score_of(word: &[u8]) -> Result<Score, ParseCause>
    ensures { result ≡ rule_score_of word.now }
{
    if after(b"$id-ref=", word).is_some() {
        Err(ParseCause::Unsupported)
    } else {
        score_of(word)
    }
}

fn all_of(joined: Option<bool>) -> bool
    ensures { result ≡ all_of joined }
{
    joined.unwrap_or(true)
}

/// Reads the words after `rule`.
#[tactic(auto, unfolding(crate::specs::Location::rule_at))]
fn rule_at(alloc: Global, words: &[Name]) -> Result<(RuleForm, &[Name]), Stop>
    ensures read { GivesInLine (λ read. (read.0, read.1.now)) result (rule_at words.now) }
    ensures shorter { IfOk result (λ read. length read.1.now ≤ length words.now) }
{
    let (id, rest) = rule_id_at(alloc, words)?;
    let (id, (role, rest)) = with(id, rule_role_at(rest))?;
    let (id, (word, rest)) = with(id, word_at(rest))?;
    let (id, score) = with(id, rule_score_of(word.bytes()))?;
    let (id, (expression, rest)) = with(id, expression_at(alloc, rest))?;
    let rule = RuleForm {
        id,
        role,
        score,
        words: expression.words,
        rule: Rule {
            all: all_of(expression.joined),
            tests: expression.tests,
        },
    };
    Ok((rule, rest))
}

/// Reads one more rule, which begins with the word `rule`.
#[tactic(auto, unfolding(crate::specs::Location::with_rule))]
fn add_rule<'a>(
    alloc: Global,
    rules: &mut Listed<RuleForm>,
    words: &'a [Name],
) -> Result<&'a [Name], Stop>
    ensures read { GivesInLine (λ rest. (rules.new, rest.now)) result (with_rule rules.old words.now) }
    ensures shorter { IfOk result (λ rest. length rest.now < length words.now) }
{
    let (word, rest) = word_at(words)?;
    when(is(word.bytes(), b"rule"), ParseCause::ExtraWord)?;
    let (rule, rest) = rule_at(alloc, rest)?;
    rules.push(rule)?;
    Ok(rest)
}

/// The rules that the words of a location end with.
pub fn rules_at(alloc: Global, words: &[Name]) -> Result<Listed<RuleForm>, Stop>
    ensures { GivesInLine (λ rules. rules) result (with_rules (length words.now) [] words.now) }
{
    let mut rules = Listed::new(alloc);
    let mut rest = words;
    while !rest.is_empty() {
        rest = add_rule(alloc, &mut rules, rest)?;
    }
    Ok(rules)
}
