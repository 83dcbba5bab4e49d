//! Which statement is at fault, loops aside.

ghost use Rattle.std.specs.Prelude.{◌≡◌, ◌≤◌, [], length};
ghost use Rattle.std.specs.List.{list_any};
ghost use Rattle.std.specs.Option.{option_or};
ghost use Rattle.cluster_model.specs.SuccessivePairs.{successive};
ghost use Rattle.cluster_model.specs.Locations.{role_written};
ghost use Rattle.cluster_model.specs.Inner.Directories.{is_unknown};
ghost use Rattle.cluster_model.specs.Inner.Checks.{cause_of, excess_of, has_unknown, has_unpromotable, lacks_action, lacks_in_pair, lacks_role, side_lacks};
ghost use Rattle.cluster_model.specs.Checks.{has_unsupported_pair, turns_down};
ghost use Rattle.cluster_model.specs.FirstFaults.{first_fault};
ghost use Rattle.cluster_model.specs.Inner.Resolution.{own_cause};
ghost use Rattle.cluster_model.specs.Inner.Search.{sound_count};

use crate::resolution::colocations::{Bearer, dependent_at, primary_at};
use crate::resolution::counts::{Counts, counted_with, nothing_counted};
use crate::resolution::directory::Directory;
use crate::resolution::locations::{role_of_word, role_written};
use crate::resolution::orders::{Point, first_point, is_down, then_point};
use crate::{ModelCause, ModelFault};
use cluster_types::{LeafId, Op, Role};
use crm_lex::Name;
use crm_parse::{Form, OrderStep, RoleWord, RuleForm, Statement};

/// How many statements stand before the first that is at fault, and its fault.
#[derive(Clone, Copy)]
pub(crate) struct Checked {
    pub sound: usize,
    pub fault: Option<ModelFault>,
}

fn has_unknown_step(directory: &Directory<'_>, steps: &[OrderStep]) -> bool
    ensures { result ≡ list_any (λ step. is_unknown directory.now step.resource) steps.now }
{
    steps
        .iter()
        .any(|step| directory.is_unknown(&step.resource))
}

fn has_unknown_member(directory: &Directory<'_>, members: &[Name]) -> bool
    ensures { result ≡ list_any (is_unknown directory.now) members.now }
{
    members.iter().any(|member| directory.is_unknown(member))
}

/// Whether a rule names a resource or a node that isn't there.
fn has_unknown(directory: &Directory<'_>, form: &Form) -> bool
    ensures { result ≡ has_unknown directory.now form.now }
{
    match form {
        Form::Location { resource, node, .. } => {
            directory.is_unknown(resource) || directory.is_unknown_node(node)
        }
        Form::RuledLocation { resource, .. } => directory.is_unknown(resource),
        Form::Colocation {
            dependent,
            primary,
            ..
        } => directory.is_unknown(&dependent.resource) || directory.is_unknown(&primary.resource),
        Form::Order { steps, .. } => has_unknown_step(directory, steps.as_slice()),
        Form::Group { members, .. } => has_unknown_member(directory, members.as_slice()),
        _ => false,
    }
}

fn lacks_role(directory: &Directory<'_>, leaf: LeafId, role: Role) -> bool
    ensures { result ≡ lacks_role directory.now leaf role }
{
    match role {
        Role::Started => false,
        Role::Promoted => !directory.may_promote(leaf),
    }
}

fn side_lacks(directory: &Directory<'_>, side: Bearer) -> bool
    ensures { result ≡ side_lacks directory.now side }
{
    lacks_role(directory, side.leaf, side.role)
}

fn lacks_action(directory: &Directory<'_>, point: Point) -> bool
    ensures { result ≡ lacks_action directory.now point }
{
    match point.what {
        Op::Promote | Op::Demote => !directory.may_promote(point.leaf),
        Op::Start | Op::Stop | Op::Monitor => false,
    }
}

fn lacks_in_pair(directory: &Directory<'_>, before: &OrderStep, step: &OrderStep) -> bool
    ensures { result ≡ lacks_in_pair directory.now (before.now, step.now) }
{
    let first = first_point(directory, &before.resource, before.action);
    let later = then_point(directory, &step.resource, step.action);
    lacks_action(directory, first) || lacks_action(directory, later)
}

fn some_pair_lacks(directory: &Directory<'_>, steps: &[OrderStep]) -> bool
    ensures { result ≡ list_any (lacks_in_pair directory.now) (successive steps.now) }
{
    let [first, others @ ..] = steps else {
        return false;
    };
    let mut before = first;
    for step in others {
        if lacks_in_pair(directory, before, step) {
            return true;
        }
        before = step;
    }
    false
}

fn rule_lacks(
    directory: &Directory<'_>,
    leaf: LeafId,
    written: Option<RoleWord>,
    rule: &RuleForm,
) -> bool
    ensures { result ≡ lacks_role directory.now leaf (role_written (option_or rule.now.role written)) }
{
    lacks_role(directory, leaf, role_written(rule.role.or(written)))
}

fn some_rule_lacks(
    directory: &Directory<'_>,
    leaf: LeafId,
    written: Option<RoleWord>,
    rules: &[RuleForm],
) -> bool
    ensures { result ≡ list_any (λ rule. lacks_role directory.now leaf (role_written (option_or rule.role written))) rules.now }
{
    rules
        .iter()
        .any(|rule| rule_lacks(directory, leaf, written, rule))
}

/// Whether the statement promotes or demotes a leaf that isn't promotable.
fn has_unpromotable(directory: &Directory<'_>, form: &Form) -> bool
    ensures { result ≡ has_unpromotable directory.now form.now }
{
    match form {
        Form::Location { resource, role, .. } => {
            lacks_role(
                directory,
                directory.first_named(resource),
                role_written(*role),
            )
        }
        Form::RuledLocation {
            resource,
            role,
            rules,
            ..
        } => {
            let leaf = directory.first_named(resource);
            some_rule_lacks(directory, leaf, *role, rules.as_slice())
        }
        Form::Colocation {
            dependent,
            primary,
            ..
        } => {
            let role = role_of_word(dependent.role);
            let dependent = dependent_at(directory, &dependent.resource, role);
            let role = role_of_word(primary.role);
            let primary = primary_at(directory, &primary.resource, role);
            side_lacks(directory, dependent) || side_lacks(directory, primary)
        }
        Form::Order { steps, .. } => some_pair_lacks(directory, steps.as_slice()),
        _ => false,
    }
}

fn turns_down(before: &OrderStep, step: &OrderStep) -> bool
    ensures { result ≡ turns_down (before.now, step.now) }
{
    !is_down(before.action) && is_down(step.action)
}

fn some_pair_turns_down(steps: &[OrderStep]) -> bool
    ensures { result ≡ list_any turns_down (successive steps.now) }
{
    let [first, others @ ..] = steps else {
        return false;
    };
    let mut before = first;
    for step in others {
        if turns_down(before, step) {
            return true;
        }
        before = step;
    }
    false
}

fn is_unsupported(form: &Form) -> bool
    ensures { result ≡ has_unsupported_pair form.now }
{
    match form {
        Form::Order { steps, .. } => some_pair_turns_down(steps.as_slice()),
        _ => false,
    }
}

/// Of what there is more than there may be.
fn excess_of(counts: Counts) -> Option<ModelCause>
    ensures { result ≡ excess_of counts }
{
    if counts.nodes > 256 {
        Some(ModelCause::TooManyNodes)
    } else if counts.leaves > 1_000 {
        Some(ModelCause::TooManyLeaves)
    } else if counts.rules > 2_000 {
        Some(ModelCause::TooManyRules)
    } else {
        None
    }
}

/// The cause of a statement that is at fault, where it and those before it have so much.
#[tactic(auto, unfolding(crate::specs::Inner::Checks::cause_of))]
fn cause_of(directory: &Directory<'_>, counts: Counts, form: &Form) -> Option<ModelCause>
    ensures { result ≡ cause_of directory.now counts form.now }
{
    if has_unknown(directory, form) {
        Some(ModelCause::UnknownName)
    } else if has_unpromotable(directory, form) {
        Some(ModelCause::NotPromotable)
    } else if is_unsupported(form) {
        Some(ModelCause::UnsupportedOrder)
    } else {
        excess_of(counts)
    }
}

/// The first statement that is at fault.
pub fn first_fault(directory: &Directory<'_>, statements: &[Statement]) -> Checked
    ensures fault { result.fault ≡ first_fault (own_cause directory.now) [] statements.now }
    ensures sound { result.sound ≡ sound_count (own_cause directory.now) [] statements.now }
    ensures within { result.sound ≤ length statements.now }
{
    let mut counts = nothing_counted();
    let mut sound: usize = 0;
    for statement in statements {
        counts = counted_with(counts, &statement.form);
        if let Some(cause) = cause_of(directory, counts, &statement.form) {
            let line = statement.line;
            let fault = Some(ModelFault::At { line, cause });
            return Checked { sound, fault };
        }
        sound += 1;
    }
    Checked { sound, fault: None }
}
