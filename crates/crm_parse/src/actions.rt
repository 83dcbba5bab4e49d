//! The actions that orders leave out, by all statements of a text.

ghost use Rattle.std.specs.Prelude.{◌≡◌, ◌++◌, [], IfOk, false};
ghost use Rattle.std.specs.Option.{option_copied, option_map_or};
ghost use Rattle.crm_parse.specs.declared.words.ActionWord.TheVariants.{Start};
ghost use Rattle.crm_parse.specs.OrderActions.{action_after, taken_action, unpromoted, with_actions};
ghost use Rattle.crm_parse.specs.Statements.{finished, says_promotable, promotable_by, promotable_in};
ghost use Rattle.crm_parse.specs.Values.{bool_of};

use crate::draft::{Draft, DraftStatement, StepDraft};
use crate::operations::value_of;
use crate::promotable::Promotable;
use crate::values::bool_of;
use crate::{ActionWord, Form, Kv, OrderStep};
use crm_lex::{Name, NoMemory};
use listed::Listed;
use std::alloc::Global;

fn says_yes(value: Option<&[u8]>) -> bool
    ensures { result ≡ option_map_or (λ value. option_map_or (λ says. says) (bool_of value) false) (option_copied value.entry) false }
{
    match value {
        Some(value) => bool_of(value).unwrap_or(false),
        None => false,
    }
}

/// Whether a clone with these meta attributes is promotable.
fn is_promotable(ms: bool, meta: &[Kv]) -> bool
    ensures { result ≡ says_promotable ms meta.now }
{
    ms || says_yes(value_of(b"promotable", meta))
}

/// Adds the resources that have a promoted role by a statement.
fn with_promotable(alloc: Global, names: Promotable, draft: &Draft) -> Result<Promotable, NoMemory>
    ensures { IfOk result (λ more. more ≡ names ++ promotable_in draft.now) }
{
    let Draft::Whole(
        Form::Cloned {
            id,
            child,
            ms,
            meta,
            ..
        },
    ) = draft
    else {
        return Ok(names);
    };
    if is_promotable(*ms, meta.as_slice()) {
        let names = names.with(alloc, id)?;
        let names = names.with(alloc, child)?;
        Ok(names)
    } else {
        Ok(names)
    }
}

/// The resources that have a promoted role by some statements.
pub fn promotable_by(alloc: Global, drafts: &[DraftStatement]) -> Result<Promotable, NoMemory>
    ensures { IfOk result (λ names. names ≡ promotable_by drafts.now) }
{
    let mut names = Promotable::new(alloc);
    for statement in drafts {
        names = with_promotable(alloc, names, &statement.draft)?;
    }
    Ok(names)
}

fn unpromoted(action: ActionWord) -> ActionWord
    ensures { result ≡ unpromoted action }
{
    match action {
        ActionWord::Promote => ActionWord::Start,
        ActionWord::Demote => ActionWord::Stop,
        ActionWord::Start | ActionWord::Stop => action,
    }
}

/// The action that a resource takes from the one before it.
fn taken_action(promotable: &Promotable, before: ActionWord, resource: &Name) -> ActionWord
    ensures { result ≡ taken_action promotable.now before resource.now }
{
    if promotable.has(resource) {
        before
    } else {
        unpromoted(before)
    }
}

/// The action of a resource of an order, after that of the resource before it.
fn action_after(promotable: &Promotable, before: ActionWord, step: &StepDraft) -> ActionWord
    ensures { result ≡ action_after promotable.now before step.now }
{
    match step.action {
        Some(action) => action,
        None => taken_action(promotable, before, &step.resource),
    }
}

/// The resources of an order with their actions.
fn with_actions(
    alloc: Global,
    promotable: &Promotable,
    steps: &[StepDraft],
) -> Result<Listed<OrderStep>, NoMemory>
    ensures { IfOk result (λ done. done ≡ with_actions promotable.now Start steps.now) }
{
    let mut action = ActionWord::Start;
    let mut done = Listed::new(alloc);
    for step in steps {
        action = action_after(promotable, action, step);
        let resource = Name::from_bytes(alloc, step.resource.bytes())?;
        done.push(OrderStep { resource, action })?;
    }
    Ok(done)
}

/// What a statement says, where these resources have a promoted role.
pub fn finished(alloc: Global, promotable: &Promotable, draft: Draft) -> Result<Form, NoMemory>
    ensures { IfOk result (λ form. form ≡ finished promotable.now draft) }
{
    match draft {
        Draft::Whole(form) => Ok(form),
        Draft::Order(order) => {
            let steps = with_actions(alloc, promotable, order.steps.as_slice())?;
            Ok(Form::Order {
                id: order.id,
                kind: order.kind,
                steps,
                symmetrical: order.symmetrical,
            })
        }
    }
}
