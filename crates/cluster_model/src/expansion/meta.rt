ghost use Rattle.std.specs.Prelude.{◌≡◌};
ghost use Rattle.cluster_model.specs.Inner.Metas.{meta_of, no_meta, or_meta};

use crate::values::{bool_at, role_at, score_at, time_at};
use crm_parse::{Kv, RoleName};
use score::Score;

/// The meta attributes of a resource that have effect, as far as they are given (Pacemaker Explained, "Resource Meta-Attributes").
#[derive(Clone, Copy)]
pub(crate) struct Meta {
    pub priority: Option<Score>,
    /// `resource-stickiness`
    pub stickiness: Option<Score>,
    /// `migration-threshold`
    pub threshold: Option<Score>,
    /// `failure-timeout`
    pub timeout_ms: Option<u32>,
    pub target_role: Option<RoleName>,
    /// `is-managed`
    pub managed: Option<bool>,
    /// `allow-migrate`
    pub migrates: Option<bool>,
}

/// No attribute is given.
pub fn no_meta() -> Meta
    ensures { result ≡ no_meta }
{
    Meta {
        priority: None,
        stickiness: None,
        threshold: None,
        timeout_ms: None,
        target_role: None,
        managed: None,
        migrates: None,
    }
}

/// What some pairs give.
#[tactic(auto, unfolding(crate::specs::Inner::Metas::meta_of))]
pub fn meta_of(pairs: &[Kv]) -> Meta
    ensures { result ≡ meta_of pairs.now }
{
    Meta {
        priority: score_at(b"priority", pairs),
        stickiness: score_at(b"resource-stickiness", pairs),
        threshold: score_at(b"migration-threshold", pairs),
        timeout_ms: time_at(b"failure-timeout", pairs),
        target_role: role_at(b"target-role", pairs),
        managed: bool_at(b"is-managed", pairs),
        migrates: bool_at(b"allow-migrate", pairs),
    }
}

/// What the one gives, and else the other.
#[tactic(auto, unfolding(crate::specs::Inner::Metas::or_meta))]
pub fn or_meta(one: Meta, other: Meta) -> Meta
    ensures { result ≡ or_meta one other }
{
    Meta {
        priority: one.priority.or(other.priority),
        stickiness: one.stickiness.or(other.stickiness),
        threshold: one.threshold.or(other.threshold),
        timeout_ms: one.timeout_ms.or(other.timeout_ms),
        target_role: one.target_role.or(other.target_role),
        managed: one.managed.or(other.managed),
        migrates: one.migrates.or(other.migrates),
    }
}
