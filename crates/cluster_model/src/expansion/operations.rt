//! The operations of a primitive that have effect.

ghost use Rattle.std.specs.Prelude.{◌≡◌, ◌++◌, codes, find, unwrap_or, false, IfOk, OnOk};
ghost use Rattle.std.specs.Option.{option_copied, option_map_or};
ghost use Rattle.crm_lex.specs.Names.{is};
ghost use Rattle.crm_parse.specs.Operations.{interval_of, recurs, value_of};
ghost use Rattle.crm_parse.specs.Values.{role_of};
ghost use Rattle.cluster_model.specs.Metas.{read_as};
ghost use Rattle.cluster_model.specs.Operations.{after_a_stop, fail_of, on_fail_in, on_fail_of, is_promoted_name, monitor_in, monitor_of, monitor_role, monitors_of};

use crate::values::role_at;
use cluster_types::{Monitor, NoMemory, OnFail, Role};
use crm_lex::is;
use crm_parse::{Kv, Operation, RoleName, interval_of, recurs, value_of};
use listed::Listed;
use std::alloc::Global;

#[tactic(auto, unfolding(crate::specs::Operations::on_fail_of))]
fn on_fail_of(word: &[u8]) -> Option<OnFail>
    ensures { result ≡ on_fail_of word.now }
{
    if is(word, b"ignore") {
        Some(OnFail::Ignore)
    } else if is(word, b"block") {
        Some(OnFail::Block)
    } else if is(word, b"stop") {
        Some(OnFail::Stop)
    } else if is(word, b"restart") {
        Some(OnFail::Restart)
    } else if is(word, b"fence") {
        Some(OnFail::Fence)
    } else {
        None
    }
}

fn on_fail_in(pairs: &[Kv]) -> Option<OnFail>
    ensures { result ≡ on_fail_in pairs.now }
{
    on_fail_of(value_of(b"on-fail", pairs)?)
}

fn op_of<'a>(name: &[u8], ops: &'a [Operation]) -> Option<&'a Operation>
    ensures { option_copied result ≡ find (λ op. is op.name name.now) ops.now }
{
    ops.iter().find(|op| is(op.name.bytes(), name))
}

/// What follows a failure of the operation of this name, where it is given.
pub fn fail_of(name: &[u8], ops: &[Operation]) -> Option<OnFail>
    ensures { result ≡ fail_of name.now ops.now }
{
    let op = op_of(name, ops)?;
    on_fail_in(op.pairs.as_slice())
}

/// What follows a failed stop where nothing is said.
pub fn after_a_stop(fencing: bool) -> OnFail
    ensures { result ≡ after_a_stop fencing }
{
    if fencing {
        OnFail::Fence
    } else {
        OnFail::Block
    }
}

fn is_promoted(role: RoleName) -> bool
    ensures { result ≡ is_promoted_name role }
{
    matches!(role, RoleName::Promoted)
}

fn runs_promoted(pairs: &[Kv]) -> bool
    ensures { result ≡ option_map_or is_promoted_name (read_as role_of (codes "role") pairs.now) false }
{
    match role_at(b"role", pairs) {
        Some(role) => is_promoted(role),
        None => false,
    }
}

fn monitor_role(pairs: &[Kv]) -> Role
    ensures { result ≡ monitor_role pairs.now }
{
    if runs_promoted(pairs) {
        Role::Promoted
    } else {
        Role::Started
    }
}

#[tactic(auto, unfolding(crate::specs::Operations::monitor_of))]
fn monitor_of(pairs: &[Kv]) -> Monitor
    ensures { result ≡ monitor_of pairs.now }
{
    Monitor {
        interval_ms: interval_of(pairs),
        role: monitor_role(pairs),
        on_fail: on_fail_in(pairs).unwrap_or(OnFail::Restart),
    }
}

fn add_monitor(monitors: &mut Listed<Monitor>, op: &Operation) -> Result<(), NoMemory>
    ensures { OnOk result (monitors.new ≡ monitors.old ++ monitor_in op.now) }
{
    if recurs(op) {
        monitors.push(monitor_of(op.pairs.as_slice()))?;
    }
    Ok(())
}

/// The recurring monitors.
pub fn monitors_of(alloc: Global, ops: &[Operation]) -> Result<Listed<Monitor>, NoMemory>
    ensures { IfOk result (λ monitors. monitors ≡ monitors_of ops.now) }
{
    let mut monitors = Listed::new(alloc);
    for op in ops {
        add_monitor(&mut monitors, op)?;
    }
    Ok(monitors)
}
