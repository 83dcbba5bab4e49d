//! The leaves of a configuration.

ghost use Rattle.std.specs.Prelude.{◌≡◌, ◌≤◌, ◌+◌, ◌++◌, ◌&&◌, length, not, true, unwrap_or, IfOk, OnOk};
ghost use Rattle.cluster_model.specs.Inner.Leaves.{leaf_in, primitive_leaf, leaves_in, leaves_of};
ghost use Rattle.cluster_model.specs.Leaves.{plain_stickiness, target_role_named};
ghost use Rattle.cluster_model.specs.Operations.{fail_of, monitors_of};

use crate::expansion::clones::uncloned;
use crate::expansion::meta::Meta;
use crate::expansion::operations::{after_a_stop, fail_of, monitors_of};
use crate::expansion::surroundings::{Surroundings, surroundings_of};
use cluster_types::{Leaf, Monitor, NoMemory, OnFail, TargetRole};
use crm_lex::Name;
use crm_parse::{Form, Kv, Operation, RoleName, Statement};
use faults::with;
use listed::Listed;
use score::Score;
use std::alloc::Global;

fn target_role_of(role: RoleName) -> TargetRole
    ensures { result ≡ target_role_named role }
{
    match role {
        RoleName::Started => TargetRole::Started,
        RoleName::Stopped => TargetRole::Stopped,
        RoleName::Promoted => TargetRole::Promoted,
        RoleName::Unpromoted => TargetRole::Unpromoted,
    }
}

fn plain_stickiness(cloned: bool) -> Score
    ensures { result ≡ plain_stickiness cloned }
{
    Score {
        points: if cloned { 1 } else { 0 },
    }
}

/// Whether a resource is managed, where nothing is in maintenance.
fn is_managed(surroundings: &Surroundings<'_>, meta: &Meta) -> bool
    ensures { result ≡ (unwrap_or meta.now.managed true && not surroundings.now.maintenance) }
{
    meta.managed.unwrap_or(true) && !surroundings.maintenance
}

/// What follows a failure of the operation of this name: this where it isn't given.
fn fail_or(name: &[u8], ops: &[Operation], default: OnFail) -> OnFail
    ensures { result ≡ unwrap_or (fail_of name.now ops.now) default }
{
    fail_of(name, ops).unwrap_or(default)
}

/// The leaf of a primitive, with its own name and its monitors.
#[tactic(auto, unfolding(crate::specs::Inner::Leaves::primitive_leaf))]
fn leaf_with(
    surroundings: &Surroundings<'_>,
    name: Name,
    monitors: Listed<Monitor>,
    pairs: &[Kv],
    ops: &[Operation],
) -> Leaf
    requires { monitors ≡ monitors_of ops.now }
    ensures { result ≡ primitive_leaf surroundings.now name pairs.now ops.now }
{
    let group = surroundings.around(&name);
    let cloned = group.clone.is_some();
    let clone = group.clone.unwrap_or(uncloned());
    let meta = surroundings.meta_around(&group, &clone, pairs);
    Leaf {
        name,
        copies: clone.copies,
        promoted_copies: clone.promoted_copies,
        cloned,
        interleave: clone.interleave,
        promotable: clone.promotable,
        follower: group.follower,
        priority: meta.priority.unwrap_or(Score { points: 0 }),
        stickiness: meta.stickiness.unwrap_or(plain_stickiness(cloned)),
        threshold: meta.threshold.unwrap_or(Score::INFINITY),
        timeout_ms: meta.timeout_ms.unwrap_or(0),
        target_role: target_role_of(meta.target_role.unwrap_or(RoleName::Started)),
        managed: is_managed(surroundings, &meta),
        migrates: meta.migrates.unwrap_or(false),
        start_fail: fail_or(b"start", ops, OnFail::Restart),
        stop_fail: fail_or(b"stop", ops, after_a_stop(surroundings.fencing)),
        promote_fail: fail_or(b"promote", ops, OnFail::Restart),
        demote_fail: fail_or(b"demote", ops, OnFail::Restart),
        monitors,
    }
}

fn leaf_of(
    alloc: Global,
    surroundings: &Surroundings<'_>,
    id: &Name,
    pairs: &[Kv],
    ops: &[Operation],
) -> Result<Leaf, NoMemory>
    ensures { IfOk result (λ leaf. leaf ≡ primitive_leaf surroundings.now id.now pairs.now ops.now) }
{
    let name = Name::from_bytes(alloc, id.bytes())?;
    let (name, monitors) = with(name, monitors_of(alloc, ops))?;
    Ok(leaf_with(surroundings, name, monitors, pairs, ops))
}

fn add_leaf(
    alloc: Global,
    surroundings: &Surroundings<'_>,
    leaves: &mut Listed<Leaf>,
    form: &Form,
) -> Result<(), NoMemory>
    ensures added { OnOk result (leaves.new ≡ leaves.old ++ leaf_in surroundings.now form.now) }
    ensures few { OnOk result (length leaves.new ≤ length leaves.old + 1) }
{
    let Form::Primitive { id, meta, ops, .. } = form else {
        return Ok(());
    };
    let leaf = leaf_of(alloc, surroundings, id, meta.as_slice(), ops.as_slice())?;
    Ok(leaves.push(leaf)?)
}

fn leaves_in(
    alloc: Global,
    surroundings: &Surroundings<'_>,
    statements: &[Statement],
) -> Result<Listed<Leaf>, NoMemory>
    ensures leaves { IfOk result (λ leaves. leaves ≡ leaves_in surroundings.now statements.now) }
    ensures few { IfOk result (λ leaves. length leaves ≤ length statements.now) }
{
    let mut leaves = Listed::new(alloc);
    for statement in statements {
        add_leaf(alloc, surroundings, &mut leaves, &statement.form)?;
    }
    Ok(leaves)
}

/// A leaf for each primitive.
#[tactic(auto, unfolding(crate::specs::Inner::Leaves::leaves_of))]
pub fn leaves_of(alloc: Global, statements: &[Statement]) -> Result<Listed<Leaf>, NoMemory>
    requires { length statements.now ≤ 1000000000 }
    ensures leaves { IfOk result (λ leaves. leaves ≡ leaves_of statements.now) }
    ensures few { IfOk result (λ leaves. length leaves ≤ length statements.now) }
{
    let surroundings = surroundings_of(alloc, statements)?;
    leaves_in(alloc, &surroundings, statements)
}
