//! The options of a cluster.

ghost use Rattle.std.specs.Prelude.{◌≡◌, codes};
ghost use Rattle.crm_lex.specs.Names.{is};
ghost use Rattle.crm_parse.specs.Values.{count_of};
ghost use Rattle.cluster_model.specs.Metas.{read_as};
ghost use Rattle.cluster_model.specs.Options.{policy_of, properties_of};
ghost use Rattle.cluster_model.specs.Settings.{option_as, properties_in};

use crate::values::count_at;
use crate::{option_given, properties_in};
use cluster_types::{Policy, Properties};
use crm_lex::is;
use crm_parse::{Kv, Statement, value_of};

#[tactic(auto, unfolding(crate::specs::Options::policy_of))]
fn policy_of(word: &[u8]) -> Option<Policy>
    ensures { result ≡ policy_of word.now }
{
    if is(word, b"stop") {
        Some(Policy::Stop)
    } else if is(word, b"ignore") {
        Some(Policy::Ignore)
    } else if is(word, b"freeze") {
        Some(Policy::Freeze)
    } else {
        None
    }
}

fn policy_at(pairs: &[Kv]) -> Option<Policy>
    ensures { result ≡ read_as policy_of (codes "no-quorum-policy") pairs.now }
{
    policy_of(value_of(b"no-quorum-policy", pairs)?)
}

/// What a cluster without quorum may do, where a statement says it.
fn policy_in(statements: &[Statement]) -> Option<Policy>
    ensures { result ≡ option_as policy_of (codes "no-quorum-policy") statements.now }
{
    for statement in statements {
        if let Some(policy) = policy_at(properties_in(&statement.form)) {
            return Some(policy);
        }
    }
    None
}

/// An option that is a count, where a statement gives it.
fn count_in(key: &[u8], statements: &[Statement]) -> Option<u32>
    ensures { result ≡ option_as count_of key.now statements.now }
{
    for statement in statements {
        if let Some(count) = count_at(key, properties_in(&statement.form)) {
            return Some(count);
        }
    }
    None
}

#[tactic(auto, unfolding(crate::specs::Options::properties_of))]
pub fn properties_of(statements: &[Statement]) -> Properties
    ensures { result ≡ properties_of statements.now }
{
    Properties {
        symmetric: option_given(b"symmetric-cluster", true, statements),
        fencing: option_given(b"stonith-enabled", true, statements),
        startup_fencing: option_given(b"startup-fencing", true, statements),
        policy: policy_in(statements).unwrap_or(Policy::Stop),
        start_fatal: option_given(b"start-failure-is-fatal", true, statements),
        stop_all: option_given(b"stop-all-resources", false, statements),
        batch_limit: count_in(b"batch-limit", statements).unwrap_or(0),
    }
}
