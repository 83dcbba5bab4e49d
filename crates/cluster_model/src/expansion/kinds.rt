ghost use Rattle.std.specs.Prelude.{◌≡◌, ◌++◌, IfOk, OnOk};
ghost use Rattle.cluster_model.specs.Inner.Faults.{is_group, resource_kinds_in, kinds_of};

use crate::name_table::NameTable;
use cluster_types::NoMemory;
use crm_parse::{Form, Statement};
use std::alloc::Global;

/// What a resource is.
#[derive(Clone, Copy)]
pub(crate) enum Kind {
    Primitive,
    Group,
    Clone,
}

pub fn is_group(kind: Kind) -> bool
    ensures { result ≡ is_group kind }
{
    matches!(kind, Kind::Group)
}

fn add_kind<'n>(kinds: &mut NameTable<'n, Kind>, form: &'n Form) -> Result<(), NoMemory>
    ensures { OnOk result (kinds.new ≡ kinds.old ++ resource_kinds_in form.now) }
{
    match form {
        Form::Primitive { id, .. } => kinds.add(id, Kind::Primitive),
        Form::Group { id, .. } => kinds.add(id, Kind::Group),
        Form::Cloned { id, .. } => kinds.add(id, Kind::Clone),
        _ => Ok(()),
    }
}

/// Each resource with its kind.
pub fn kinds_of<'n>(
    alloc: Global,
    statements: &'n [Statement],
) -> Result<NameTable<'n, Kind>, NoMemory>
    ensures { IfOk result (λ kinds. kinds ≡ kinds_of statements.now) }
{
    let mut kinds = NameTable::new(alloc);
    for statement in statements {
        add_kind(&mut kinds, &statement.form)?;
    }
    Ok(kinds)
}
