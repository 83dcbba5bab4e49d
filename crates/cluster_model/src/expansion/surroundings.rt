ghost use Rattle.std.specs.Prelude.{◌≡◌, ◌≤◌, IfOk, length};
ghost use Rattle.cluster_model.specs.Inner.Leaves.{around, meta_around, surroundings_of};

use crate::expansion::clones::{InClone, cloned_by};
use crate::expansion::groups::{InGroup, grouped_by};
use crate::expansion::meta::{Meta, meta_of, no_meta, or_meta};
use crate::expansion::settings::{count_nodes, defaults_of, option_given};
use crate::name_table::NameTable;
use cluster_types::NoMemory;
use crm_lex::Name;
use crm_parse::{Kv, Statement};
use faults::with;
use std::alloc::Global;

/// What stands around the primitives of a configuration.
#[derive(Drop)]
pub(crate) struct Surroundings<'n> {
    /// Whether nodes are fenced at all.
    pub fencing: bool,
    /// Whether no resource is managed.
    pub maintenance: bool,
    pub defaults: Meta,
    /// Each child of a clone.
    pub cloned: NameTable<'n, InClone>,
    /// Each member of a group.
    pub grouped: NameTable<'n, InGroup>,
}

#[tactic(auto, unfolding(crate::specs::Inner::Leaves::surroundings_of))]
pub fn surroundings_of<'n>(
    alloc: Global,
    statements: &'n [Statement],
) -> Result<Surroundings<'n>, NoMemory>
    requires { length statements.now ≤ 1000000000 }
    ensures { IfOk result (λ surroundings. surroundings ≡ surroundings_of statements.now) }
{
    let nodes = count_nodes(statements);
    let cloned = cloned_by(alloc, nodes, statements)?;
    let grouped = grouped_by(alloc, &cloned, statements);
    let (cloned, grouped) = with(cloned, grouped)?;
    Ok(Surroundings {
        fencing: option_given(b"stonith-enabled", true, statements),
        maintenance: option_given(b"maintenance-mode", false, statements),
        defaults: defaults_of(statements),
        cloned,
        grouped,
    })
}

impl<'n> Surroundings<'n> {
    /// The group of a primitive with its clone; a primitive outside of groups may be in a clone of its own.
    pub fn around(&self, id: &Name) -> InGroup
        ensures { result ≡ around self.now id.now }
    {
        match self.grouped.get(id) {
            Some(group) => group,
            None => InGroup {
                meta: no_meta(),
                follower: false,
                clone: self.cloned.get(id),
            },
        }
    }

    /// The meta attributes of a primitive, which may be those of its group, of its clone, or the defaults.
    pub fn meta_around(&self, group: &InGroup, clone: &InClone, pairs: &[Kv]) -> Meta
        ensures { result ≡ meta_around self.now group.now clone.now pairs.now }
    {
        let own = or_meta(meta_of(pairs), group.meta);
        or_meta(or_meta(own, clone.meta), self.defaults)
    }
}
