//! What comes before what.

ghost use Rattle.std.specs.Prelude.{◌≡◌, ◌++◌, map, IfOk, OnOk};
ghost use Rattle.cluster_model.specs.SuccessivePairs.{successive};
ghost use Rattle.cluster_model.specs.Inner.Orders.{first_point, member_order, order_of, orders_in, orders_of, step_order, then_point};
ghost use Rattle.cluster_model.specs.Orders.{is_down, kind_of_word, op_of};

use crate::resolution::copies::copy_name;
use crate::resolution::directory::Directory;
use cluster_types::{LeafId, NoMemory, Op, Order, OrderKind};
use crm_lex::Name;
use crm_parse::{ActionWord, Form, KindWord, OrderStep, Statement};
use listed::Listed;
use std::alloc::Global;

/// A leaf and its action: one side of an order.
#[derive(Clone, Copy)]
pub(crate) struct Point {
    pub leaf: LeafId,
    pub what: Op,
}

fn op_of(action: ActionWord) -> Op
    ensures { result ≡ op_of action }
{
    match action {
        ActionWord::Start => Op::Start,
        ActionWord::Stop => Op::Stop,
        ActionWord::Promote => Op::Promote,
        ActionWord::Demote => Op::Demote,
    }
}

fn kind_of_word(word: KindWord) -> OrderKind
    ensures { result ≡ kind_of_word word }
{
    match word {
        KindWord::Mandatory => OrderKind::Mandatory,
        KindWord::Optional => OrderKind::Optional,
        KindWord::Serialize => OrderKind::Serialize,
    }
}

/// Whether the action takes a resource down.
pub fn is_down(action: ActionWord) -> bool
    ensures { result ≡ is_down action }
{
    matches!(action, ActionWord::Stop | ActionWord::Demote)
}

/// What comes first: a group has come up with its last member, and has gone down with its first.
pub fn first_point(directory: &Directory<'_>, resource: &Name, action: ActionWord) -> Point
    ensures { result ≡ first_point directory.now resource.now action }
{
    let leaf = if is_down(action) {
        directory.first_named(resource)
    } else {
        directory.last_named(resource)
    };
    Point {
        leaf,
        what: op_of(action),
    }
}

/// What comes then: a group comes up with its first member, and goes down with its last.
pub fn then_point(directory: &Directory<'_>, resource: &Name, action: ActionWord) -> Point
    ensures { result ≡ then_point directory.now resource.now action }
{
    let leaf = if is_down(action) {
        directory.last_named(resource)
    } else {
        directory.first_named(resource)
    };
    Point {
        leaf,
        what: op_of(action),
    }
}

fn order_of(
    alloc: Global,
    directory: &Directory<'_>,
    id: &Name,
    kind: OrderKind,
    symmetrical: bool,
    first: Point,
    later: Point,
) -> Result<Order, NoMemory>
    ensures { IfOk result (λ order. order ≡ order_of directory.now id.now kind symmetrical first later) }
{
    Ok(Order {
        id: copy_name(alloc, id)?,
        kind,
        first: first.leaf,
        first_op: first.what,
        then_leaf: later.leaf,
        then_op: later.what,
        symmetrical,
        local: directory.is_local(first.leaf, later.leaf),
    })
}

/// An order of two resources.
fn step_order(
    alloc: Global,
    directory: &Directory<'_>,
    id: &Name,
    kind: OrderKind,
    symmetrical: bool,
    before: &OrderStep,
    step: &OrderStep,
) -> Result<Order, NoMemory>
    ensures { IfOk result (λ order. order ≡ step_order directory.now id.now kind symmetrical (before.now, step.now)) }
{
    let first = first_point(directory, &before.resource, before.action);
    let later = then_point(directory, &step.resource, step.action);
    order_of(alloc, directory, id, kind, symmetrical, first, later)
}

/// A member of a group starts after the member before it.
fn member_order(
    alloc: Global,
    directory: &Directory<'_>,
    id: &Name,
    before: &Name,
    member: &Name,
) -> Result<Order, NoMemory>
    ensures { IfOk result (λ order. order ≡ member_order directory.now id.now (before.now, member.now)) }
{
    let first = first_point(directory, before, ActionWord::Start);
    let later = then_point(directory, member, ActionWord::Start);
    let kind = OrderKind::Mandatory;
    order_of(alloc, directory, id, kind, true, first, later)
}

fn add_steps(
    alloc: Global,
    directory: &Directory<'_>,
    orders: &mut Listed<Order>,
    id: &Name,
    kind: OrderKind,
    symmetrical: bool,
    steps: &[OrderStep],
) -> Result<(), NoMemory>
    ensures { OnOk result (orders.new ≡ orders.old ++ map (step_order directory.now id.now kind symmetrical) (successive steps.now)) }
{
    let [first, others @ ..] = steps else {
        return Ok(());
    };
    let mut before = first;
    for step in others {
        let order = step_order(alloc, directory, id, kind, symmetrical, before, step)?;
        orders.push(order)?;
        before = step;
    }
    Ok(())
}

fn add_group(
    alloc: Global,
    directory: &Directory<'_>,
    orders: &mut Listed<Order>,
    id: &Name,
    members: &[Name],
) -> Result<(), NoMemory>
    ensures { OnOk result (orders.new ≡ orders.old ++ map (member_order directory.now id.now) (successive members.now)) }
{
    let [first, others @ ..] = members else {
        return Ok(());
    };
    let mut before = first;
    for member in others {
        let order = member_order(alloc, directory, id, before, member)?;
        orders.push(order)?;
        before = member;
    }
    Ok(())
}

fn add_orders(
    alloc: Global,
    directory: &Directory<'_>,
    orders: &mut Listed<Order>,
    form: &Form,
) -> Result<(), NoMemory>
    ensures { OnOk result (orders.new ≡ orders.old ++ orders_in directory.now form.now) }
{
    match form {
        Form::Order {
            id,
            kind,
            steps,
            symmetrical,
        } => {
            let kind = kind_of_word(*kind);
            let steps = steps.as_slice();
            add_steps(alloc, directory, orders, id, kind, *symmetrical, steps)
        }
        Form::Group { id, members, .. } => {
            add_group(alloc, directory, orders, id, members.as_slice())
        }
        _ => Ok(()),
    }
}

/// The orders, in the order of the text, those of a group at its statement.
pub fn orders_of(
    alloc: Global,
    directory: &Directory<'_>,
    statements: &[Statement],
) -> Result<Listed<Order>, NoMemory>
    ensures { IfOk result (λ orders. orders ≡ orders_of directory.now statements.now) }
{
    let mut orders = Listed::new(alloc);
    for statement in statements {
        add_orders(alloc, directory, &mut orders, &statement.form)?;
    }
    Ok(orders)
}
