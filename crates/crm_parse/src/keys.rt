//! Which values the keys with effect take.

ghost use Rattle.std.specs.Prelude.{◌≡◌};
ghost use Rattle.crm_parse.specs.Keys.{accepts, clone_meta, is_clone_meta, is_in_primitive, is_promoted_max, leaf_meta, ms_meta, node_attribute, on_fail, op_default, operation_value, property, stray};

use crate::ParseCause;
use crate::accept::{
    a_bool, a_count, a_policy, a_role, a_score, a_threshold, a_time, a_yes, not_false, not_true,
    only, runs_in, when,
};
use crate::place::{OpName, Place};
use crate::values::role_of;
use crm_lex::is;

fn leaf_meta(key: &[u8], value: &[u8]) -> Result<(), ParseCause>
    ensures { result ≡ leaf_meta key.now value.now }
{
    if is(key, b"priority") || is(key, b"resource-stickiness") {
        a_score(value)
    } else if is(key, b"migration-threshold") {
        a_threshold(value)
    } else if is(key, b"failure-timeout") {
        a_time(value)
    } else if is(key, b"target-role") {
        a_role(value)
    } else if is(key, b"is-managed") || is(key, b"allow-migrate") {
        a_bool(value)
    } else if is(key, b"multiple-active") {
        only(b"stop_start", value)
    } else if is(key, b"requires") {
        only(b"fencing", value)
    } else if is(key, b"critical") {
        not_false(value)
    } else if is(key, b"maintenance") {
        not_true(value)
    } else {
        Ok(())
    }
}

/// Whether the key says how many copies may be promoted.
pub fn is_promoted_max(key: &[u8]) -> bool
    ensures { result ≡ is_promoted_max key.now }
{
    is(key, b"promoted-max") || is(key, b"master-max")
}

fn clone_meta(key: &[u8], value: &[u8]) -> Result<(), ParseCause>
    ensures { result ≡ clone_meta key.now value.now }
{
    if is(key, b"clone-max") || is_promoted_max(key) {
        a_count(value)
    } else if is(key, b"clone-node-max")
        || is(key, b"promoted-node-max")
        || is(key, b"master-node-max")
    {
        only(b"1", value)
    } else if is(key, b"promotable") || is(key, b"interleave") {
        a_bool(value)
    } else if is(key, b"globally-unique") || is(key, b"ordered") {
        not_true(value)
    } else {
        leaf_meta(key, value)
    }
}

fn ms_meta(key: &[u8], value: &[u8]) -> Result<(), ParseCause>
    ensures { result ≡ ms_meta key.now value.now }
{
    if is(key, b"promotable") {
        a_yes(value)
    } else {
        clone_meta(key, value)
    }
}

fn node_attribute(key: &[u8], value: &[u8]) -> Result<(), ParseCause>
    ensures { result ≡ node_attribute key.now value.now }
{
    if is(key, b"standby") {
        a_bool(value)
    } else if is(key, b"maintenance") {
        not_true(value)
    } else {
        Ok(())
    }
}

fn property(key: &[u8], value: &[u8]) -> Result<(), ParseCause>
    ensures { result ≡ property key.now value.now }
{
    if is(key, b"symmetric-cluster")
        || is(key, b"stonith-enabled")
        || is(key, b"startup-fencing")
        || is(key, b"start-failure-is-fatal")
        || is(key, b"stop-all-resources")
        || is(key, b"maintenance-mode")
    {
        a_bool(value)
    } else if is(key, b"no-quorum-policy") {
        a_policy(value)
    } else if is(key, b"batch-limit") {
        a_count(value)
    } else if is(key, b"placement-strategy") {
        only(b"default", value)
    } else if is(key, b"node-health-strategy") {
        only(b"none", value)
    } else {
        Ok(())
    }
}

fn op_default(key: &[u8]) -> Result<(), ParseCause>
    ensures { result ≡ op_default key.now }
{
    when(!is(key, b"on-fail"), ParseCause::Unsupported)
}

fn on_fail(name: OpName, value: &[u8]) -> Result<(), ParseCause>
    ensures { result ≡ on_fail name value.now }
{
    if matches!(name, OpName::Other) {
        Ok(())
    } else if is(value, b"block") || is(value, b"fence") {
        Ok(())
    } else if is(value, b"restart") || is(value, b"stop") {
        when(!matches!(name, OpName::Stop), ParseCause::BadValue)
    } else if is(value, b"ignore") {
        when(matches!(name, OpName::Monitor), ParseCause::Unsupported)
    } else if is(value, b"standby") || is(value, b"demote") {
        Err(ParseCause::Unsupported)
    } else {
        Err(ParseCause::BadValue)
    }
}

fn operation(name: OpName, key: &[u8], value: &[u8]) -> Result<(), ParseCause>
    ensures { result ≡ operation_value name key.now value.now }
{
    if is(key, b"interval") {
        a_time(value)
    } else if is(key, b"on-fail") {
        on_fail(name, value)
    } else if is(key, b"role") {
        runs_in(role_of(value))
    } else if is(key, b"enabled") {
        a_bool(value)
    } else {
        Ok(())
    }
}

/// Takes or refuses a pair of this key and value in its place.
#[tactic(auto, unfolding(crate::specs::Keys::accepts))]
pub fn accepts(place: Place, key: &[u8], value: &[u8]) -> Result<(), ParseCause>
    ensures { result ≡ accepts place key.now value.now }
{
    match place {
        Place::Plain | Place::PrimitivePlain => Ok(()),
        Place::NodeAttributes => node_attribute(key, value),
        Place::PrimitiveMeta | Place::LeafMeta => leaf_meta(key, value),
        Place::CloneMeta => clone_meta(key, value),
        Place::MsMeta => ms_meta(key, value),
        Place::Property => property(key, value),
        Place::OpDefaults => op_default(key),
        Place::Operation(name) => operation(name, key, value),
    }
}

fn is_in_primitive(place: Place) -> bool
    ensures { result ≡ is_in_primitive place }
{
    match place {
        Place::PrimitivePlain | Place::PrimitiveMeta | Place::Operation(_) => true,
        _ => false,
    }
}

/// Whether the keys of the place are those of a clone.
pub fn is_clone_meta(place: Place) -> bool
    ensures { result ≡ is_clone_meta place }
{
    match place {
        Place::CloneMeta | Place::MsMeta => true,
        _ => false,
    }
}

/// The cause at a word that is no pair.
pub fn stray(place: Place, word: &[u8]) -> ParseCause
    ensures { result ≡ stray place word.now }
{
    if is_in_primitive(place) && (is(word, b"op_params") || is(word, b"op_meta")) {
        ParseCause::Unsupported
    } else {
        ParseCause::ExtraWord
    }
}
