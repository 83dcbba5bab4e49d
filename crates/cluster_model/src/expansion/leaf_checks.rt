//! Which statement is at fault.

ghost use Rattle.std.specs.Prelude.{◌≡◌, ◌++◌, is_none, not, true, false, None, IfOk};
ghost use Rattle.std.specs.List.{list_any};
ghost use Rattle.std.specs.Option.{option_map_or};
ghost use Rattle.cluster_model.specs.Inner.Faults.{expand_cause_of, fault_of, first_expand_fault, has_unknown_part, is_group, may_contain, nests, promotes_group};
ghost use Rattle.cluster_model.specs.Faults.{has_twice, is_empty_group, parts_in};
ghost use Rattle.cluster_model.specs.Inner.Tables.{lookup};

use crate::expansion::clones::is_promotable;
use crate::expansion::kinds::{Kind, is_group, kinds_of};
use crate::expansion::seen_names::{Seen, nothing_seen, parts_in};
use crate::name_table::NameTable;
use crate::{ExpandCause, ExpandFault};
use cluster_types::NoMemory;
use crm_lex::{Name, NameSet};
use crm_parse::{Form, Statement};
use std::alloc::Global;

fn is_unknown(kinds: &NameTable<'_, Kind>, part: &Name) -> bool
    ensures { result ≡ is_none (lookup kinds.now part.now) }
{
    kinds.get(part).is_none()
}

fn has_unknown(kinds: &NameTable<'_, Kind>, form: &Form) -> bool
    ensures { result ≡ has_unknown_part kinds.now form.now }
{
    parts_in(form).iter().any(|part| is_unknown(kinds, part))
}

fn may_hold(form: &Form, kind: Kind) -> bool
    ensures { result ≡ may_contain form.now kind }
{
    match kind {
        Kind::Primitive => true,
        Kind::Group => !matches!(form, Form::Group { .. }),
        Kind::Clone => false,
    }
}

fn may_hold_part(kinds: &NameTable<'_, Kind>, form: &Form, part: &Name) -> bool
    ensures { result ≡ option_map_or (may_contain form.now) (lookup kinds.now part.now) true }
{
    match kinds.get(part) {
        Some(kind) => may_hold(form, kind),
        None => true,
    }
}

fn nests(kinds: &NameTable<'_, Kind>, form: &Form) -> bool
    ensures { result ≡ nests kinds.now form.now }
{
    parts_in(form)
        .iter()
        .any(|part| !may_hold_part(kinds, form, part))
}

fn is_empty_group(form: &Form) -> bool
    ensures { result ≡ is_empty_group form.now }
{
    match form {
        Form::Group { members, .. } => members.is_empty(),
        _ => false,
    }
}

/// Whether some of the parts is among the names, among the names before them all, or among the parts before it.
fn has_twice_after(
    alloc: Global,
    names: &NameSet,
    before: &mut NameSet,
    parts: &[Name],
) -> Result<bool, NoMemory>
    ensures { IfOk result (λ twice. twice ≡ has_twice (names.now ++ before.old) parts.now) }
{
    for part in parts {
        if names.has(part) || before.has(part) {
            return Ok(true);
        }
        before.add(alloc, part)?;
    }
    Ok(false)
}

/// Whether some of the parts is among the names, or among those before it.
fn has_twice(alloc: Global, names: &NameSet, parts: &[Name]) -> Result<bool, NoMemory>
    ensures { IfOk result (λ twice. twice ≡ has_twice names.now parts.now) }
{
    let mut before = NameSet::new(alloc);
    has_twice_after(alloc, names, &mut before, parts)
}

fn is_group_part(kinds: &NameTable<'_, Kind>, part: &Name) -> bool
    ensures { result ≡ option_map_or is_group (lookup kinds.now part.now) false }
{
    match kinds.get(part) {
        Some(kind) => is_group(kind),
        None => false,
    }
}

fn promotes_group(kinds: &NameTable<'_, Kind>, form: &Form) -> bool
    ensures { result ≡ promotes_group kinds.now form.now }
{
    match form {
        Form::Cloned {
            child,
            ms,
            meta,
            ..
        } => is_promotable(*ms, meta.as_slice()) && is_group_part(kinds, child),
        _ => false,
    }
}

/// The cause of a statement that is at fault, after what was seen before it, where a part is named twice or none is.
#[tactic(auto, unfolding(crate::specs::Inner::Faults::expand_cause_of))]
fn cause_where(
    kinds: &NameTable<'_, Kind>,
    seen: &Seen,
    form: &Form,
    twice: bool,
) -> Option<ExpandCause>
    requires { twice ≡ has_twice seen.now.parts (parts_in form.now) }
    ensures { result ≡ expand_cause_of kinds.now seen.now form.now }
{
    if seen.is_duplicate(form) {
        Some(ExpandCause::DuplicateName)
    } else if has_unknown(kinds, form) {
        Some(ExpandCause::UnknownName)
    } else if nests(kinds, form) {
        Some(ExpandCause::NestedTwice)
    } else if is_empty_group(form) {
        Some(ExpandCause::EmptyGroup)
    } else if twice {
        Some(ExpandCause::MemberTwice)
    } else if promotes_group(kinds, form) {
        Some(ExpandCause::UnsupportedMeta)
    } else {
        None
    }
}

/// The cause of a statement that is at fault, after what was seen before it.
fn cause_of(
    alloc: Global,
    kinds: &NameTable<'_, Kind>,
    seen: &Seen,
    form: &Form,
) -> Result<Option<ExpandCause>, NoMemory>
    ensures { IfOk result (λ cause. cause ≡ expand_cause_of kinds.now seen.now form.now) }
{
    let twice = has_twice(alloc, &seen.parts, parts_in(form))?;
    Ok(cause_where(kinds, seen, form, twice))
}

/// The fault of the first statement that is at fault, after what was seen before them.
fn first_fault(
    alloc: Global,
    kinds: &NameTable<'_, Kind>,
    seen: &mut Seen,
    statements: &[Statement],
) -> Result<Option<ExpandFault>, NoMemory>
    ensures { IfOk result (λ fault. fault ≡ first_expand_fault kinds.now seen.old statements.now) }
{
    for statement in statements {
        if let Some(cause) = cause_of(alloc, kinds, seen, &statement.form)? {
            return Ok(Some(ExpandFault::At {
                line: statement.line,
                cause,
            }));
        }
        seen.add(alloc, &statement.form)?;
    }
    Ok(None)
}

/// The fault of the first statement that is at fault.
#[tactic(auto, unfolding(crate::specs::Inner::Faults::fault_of))]
pub fn fault_of(alloc: Global, statements: &[Statement]) -> Result<Option<ExpandFault>, NoMemory>
    ensures { IfOk result (λ fault. fault ≡ fault_of statements.now) }
{
    let kinds = kinds_of(alloc, statements)?;
    let mut seen = nothing_seen(alloc);
    first_fault(alloc, &kinds, &mut seen, statements)
}
