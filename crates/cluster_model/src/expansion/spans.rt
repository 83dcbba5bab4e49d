//! The first and the last leaf of each resource.

ghost use Rattle.std.specs.Prelude.{◌≡◌, ◌≤◌, ◌++◌, length, unwrap_or, slice_get, IfOk, OnOk};
ghost use Rattle.std.specs.Option.{option_copied, option_map_or};
ghost use Rattle.cluster_model.specs.Inner.Spans.{ends_by, group_ends_in, ends_named, ends_of, number, number_of, numbers_of, span_in, spans_in, spans_of};

use crate::Span;
use crate::name_table::NameTable;
use cluster_types::{Leaf, LeafId, NoMemory};
use crm_lex::Name;
use crm_parse::{Form, Statement};
use listed::Listed;
use std::alloc::Global;

/// The first and the last leaf of a resource, without its name.
#[derive(Clone, Copy)]
pub(crate) struct Ends {
    pub first: LeafId,
    pub last: LeafId,
}

/// Each leaf with its number.
fn numbers_of<'n>(alloc: Global, leaves: &'n [Leaf]) -> Result<NameTable<'n, LeafId>, NoMemory>
    requires { length leaves.now ≤ 1000000000 }
    ensures { IfOk result (λ numbers. numbers ≡ numbers_of leaves.now) }
{
    let mut numbers = NameTable::new(alloc);
    let mut next: LeafId = 0;
    for leaf in leaves {
        numbers.add(&leaf.name, next)?;
        next += 1;
    }
    Ok(numbers)
}

fn number(numbers: &NameTable<'_, LeafId>, name: &Name) -> LeafId
    ensures { result ≡ number numbers.now name.now }
{
    numbers.get(name).unwrap_or(0)
}

fn number_of(numbers: &NameTable<'_, LeafId>, name: Option<&Name>) -> LeafId
    ensures { result ≡ number_of numbers.now (option_copied name.entry) }
{
    match name {
        Some(name) => number(numbers, name),
        None => 0,
    }
}

fn ends_of(numbers: &NameTable<'_, LeafId>, members: &[Name]) -> Ends
    ensures { result ≡ ends_of numbers.now members.now }
{
    Ends {
        first: number_of(numbers, members.first()),
        last: number_of(numbers, members.last()),
    }
}

fn add_ends<'n>(
    numbers: &NameTable<'_, LeafId>,
    groups: &mut NameTable<'n, Ends>,
    form: &'n Form,
) -> Result<(), NoMemory>
    ensures { OnOk result (groups.new ≡ groups.old ++ group_ends_in numbers.now form.now) }
{
    let Form::Group { id, members, .. } = form else {
        return Ok(());
    };
    groups.add(id, ends_of(numbers, members.as_slice()))
}

/// Each group with its ends.
fn ends_by<'n>(
    alloc: Global,
    numbers: &NameTable<'_, LeafId>,
    statements: &'n [Statement],
) -> Result<NameTable<'n, Ends>, NoMemory>
    ensures { IfOk result (λ groups. groups ≡ ends_by numbers.now statements.now) }
{
    let mut groups = NameTable::new(alloc);
    for statement in statements {
        add_ends(numbers, &mut groups, &statement.form)?;
    }
    Ok(groups)
}

/// The ends of a group, or of a primitive.
fn ends_named(numbers: &NameTable<'_, LeafId>, groups: &NameTable<'_, Ends>, name: &Name) -> Ends
    ensures { result ≡ ends_named numbers.now groups.now name.now }
{
    match groups.get(name) {
        Some(ends) => ends,
        None => Ends {
            first: number(numbers, name),
            last: number(numbers, name),
        },
    }
}

fn add_span(
    alloc: Global,
    numbers: &NameTable<'_, LeafId>,
    groups: &NameTable<'_, Ends>,
    spans: &mut Listed<Span>,
    form: &Form,
) -> Result<(), NoMemory>
    ensures { OnOk result (spans.new ≡ spans.old ++ span_in numbers.now groups.now form.now) }
{
    let (id, whole) = match form {
        Form::Primitive { id, .. } | Form::Group { id, .. } => (id, id),
        Form::Cloned { id, child, .. } => (id, child),
        _ => return Ok(()),
    };
    let ends = ends_named(numbers, groups, whole);
    let name = Name::from_bytes(alloc, id.bytes())?;
    let span = Span {
        name,
        first: ends.first,
        last: ends.last,
    };
    Ok(spans.push(span)?)
}

fn spans_in(
    alloc: Global,
    numbers: &NameTable<'_, LeafId>,
    groups: &NameTable<'_, Ends>,
    statements: &[Statement],
) -> Result<Listed<Span>, NoMemory>
    ensures { IfOk result (λ spans. spans ≡ spans_in numbers.now groups.now statements.now) }
{
    let mut spans = Listed::new(alloc);
    for statement in statements {
        add_span(alloc, numbers, groups, &mut spans, &statement.form)?;
    }
    Ok(spans)
}

/// A span for each resource.
#[tactic(auto, unfolding(crate::specs::Inner::Spans::spans_of))]
pub fn spans_of(
    alloc: Global,
    leaves: &[Leaf],
    statements: &[Statement],
) -> Result<Listed<Span>, NoMemory>
    requires { length leaves.now ≤ 1000000000 }
    ensures { IfOk result (λ spans. spans ≡ spans_of leaves.now statements.now) }
{
    let numbers = numbers_of(alloc, leaves)?;
    let groups = ends_by(alloc, &numbers, statements)?;
    spans_in(alloc, &numbers, &groups, statements)
}
