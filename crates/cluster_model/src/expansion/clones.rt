ghost use Rattle.std.specs.Prelude.{◌≡◌, ◌++◌, false, unwrap_or, codes, OnOk, IfOk};
ghost use Rattle.std.specs.Option.{option_map_or, option_or};
ghost use Rattle.crm_parse.specs.Operations.{value_of};
ghost use Rattle.crm_parse.specs.Statements.{says_promotable};
ghost use Rattle.crm_parse.specs.Values.{bool_of, count_of};
ghost use Rattle.cluster_model.specs.Inner.Clones.{cloned_by, cloned_in, in_clone, uncloned};
ghost use Rattle.cluster_model.specs.Clones.{copies_in, promoted_in};
ghost use Rattle.cluster_model.specs.Metas.{read_as};

use crate::expansion::meta::{Meta, meta_of, no_meta};
use crate::name_table::NameTable;
use crate::values::{bool_at, count_at};
use cluster_types::NoMemory;
use crm_parse::{Form, Kv, Statement};
use std::alloc::Global;

/// What a clone gives to what is in it.
#[derive(Clone, Copy)]
pub(crate) struct InClone {
    pub meta: Meta,
    pub copies: u32,
    pub promoted_copies: u32,
    pub interleave: bool,
    pub promotable: bool,
}

/// What holds outside of clones.
pub fn uncloned() -> InClone
    ensures { result ≡ uncloned }
{
    InClone {
        meta: no_meta(),
        copies: 1,
        promoted_copies: 1,
        interleave: false,
        promotable: false,
    }
}

fn copies_in(nodes: u32, pairs: &[Kv]) -> u32
    ensures { result ≡ copies_in nodes pairs.now }
{
    let most = count_at(b"clone-max", pairs).unwrap_or(nodes);
    if most < nodes { most } else { nodes }
}

fn promoted_in(pairs: &[Kv]) -> u32
    ensures { result ≡ promoted_in pairs.now }
{
    let most = count_at(b"promoted-max", pairs);
    most.or(count_at(b"master-max", pairs)).unwrap_or(1)
}

/// Whether a clone with these meta attributes is promotable.
pub fn is_promotable(ms: bool, pairs: &[Kv]) -> bool
    ensures { result ≡ says_promotable ms pairs.now }
{
    ms || bool_at(b"promotable", pairs).unwrap_or(false)
}

#[tactic(auto, unfolding(crate::specs::Inner::Clones::in_clone))]
fn in_clone(nodes: u32, ms: bool, pairs: &[Kv]) -> InClone
    ensures { result ≡ in_clone nodes ms pairs.now }
{
    InClone {
        meta: meta_of(pairs),
        copies: copies_in(nodes, pairs),
        promoted_copies: promoted_in(pairs),
        interleave: bool_at(b"interleave", pairs).unwrap_or(false),
        promotable: is_promotable(ms, pairs),
    }
}

fn add_cloned<'n>(
    nodes: u32,
    cloned: &mut NameTable<'n, InClone>,
    form: &'n Form,
) -> Result<(), NoMemory>
    ensures { OnOk result (cloned.new ≡ cloned.old ++ cloned_in nodes form.now) }
{
    let Form::Cloned {
        child,
        ms,
        meta,
        ..
    } = form
    else {
        return Ok(());
    };
    cloned.add(child, in_clone(nodes, *ms, meta.as_slice()))
}

/// Each child of a clone, where there are so many nodes.
pub fn cloned_by<'n>(
    alloc: Global,
    nodes: u32,
    statements: &'n [Statement],
) -> Result<NameTable<'n, InClone>, NoMemory>
    ensures { IfOk result (λ cloned. cloned ≡ cloned_by nodes statements.now) }
{
    let mut cloned = NameTable::new(alloc);
    for statement in statements {
        add_cloned(nodes, &mut cloned, &statement.form)?;
    }
    Ok(cloned)
}
