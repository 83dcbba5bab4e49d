ghost use Rattle.std.specs.Prelude.{◌≡◌, ◌++◌, OnOk};
ghost use Rattle.std.specs.List.{list_any};
ghost use Rattle.std.specs.Option.{option_copied, option_to_list};
ghost use Rattle.cluster_model.specs.Inner.Faults.{AreAlike, HaveTheSame, is_duplicate, nothing_seen, seen_after};
ghost use Rattle.cluster_model.specs.Faults.{ids_in, parts_in};
ghost use Rattle.cluster_model.specs.Settings.{node_names_in};
ghost use Rattle.crm_lex.specs.NameSets.{has_name};

use cluster_types::NoMemory;
use crm_lex::{Name, NameSet};
use crm_parse::Form;
use std::alloc::Global;
use std::slice;

/// The names that the statements so far use.
#[derive(Drop)]
pub(crate) struct Seen {
    /// The nodes.
    pub nodes: NameSet,
    /// The resources and the rules.
    pub ids: NameSet,
    /// The members of groups, and the children of clones.
    pub parts: NameSet,
}

pub fn nothing_seen(alloc: Global) -> Seen
    ensures { result ≡ nothing_seen }
{
    Seen {
        nodes: NameSet::new(alloc),
        ids: NameSet::new(alloc),
        parts: NameSet::new(alloc),
    }
}

/// The name of a node.
fn node_in(form: &Form) -> Option<&Name>
    ensures { option_to_list (option_copied result) ≡ node_names_in form.now }
{
    match form {
        Form::Node { name, .. } => Some(name),
        _ => None,
    }
}

/// The id of a resource or of a rule.
fn id_in(form: &Form) -> Option<&Name>
    ensures { option_to_list (option_copied result) ≡ ids_in form.now }
{
    match form {
        Form::Primitive { id, .. }
        | Form::Group { id, .. }
        | Form::Cloned { id, .. }
        | Form::Location { id, .. }
        | Form::RuledLocation { id, .. }
        | Form::Colocation { id, .. }
        | Form::Order { id, .. } => Some(id),
        Form::Node { .. } | Form::Settings { .. } | Form::Kept { .. } => None,
    }
}

/// The members of a group, or the child of a clone.
pub fn parts_in(form: &Form) -> &[Name]
    ensures { result.now ≡ parts_in form.now }
{
    match form {
        Form::Group { members, .. } => members.as_slice(),
        Form::Cloned { child, .. } => slice::from_ref(child),
        _ => &[],
    }
}

fn has_some(names: &NameSet, name: Option<&Name>) -> bool
    ensures { result ≡ list_any (has_name names.now) (option_to_list (option_copied name.entry)) }
{
    match name {
        Some(name) => names.has(name),
        None => false,
    }
}

#[tactic(auto, using(crate::proofs::SameNames::with_one, crate::proofs::SameNames::with_none))]
fn add_some(alloc: Global, names: &mut NameSet, name: Option<&Name>) -> Result<(), NoMemory>
    ensures { OnOk result (HaveTheSame names.new (names.old ++ option_to_list (option_copied name.entry))) }
{
    match name {
        Some(name) => names.add(alloc, name),
        None => Ok(()),
    }
}

fn add_all(alloc: Global, names: &mut NameSet, more: &[Name]) -> Result<(), NoMemory>
    ensures { OnOk result (HaveTheSame names.new (names.old ++ more.now)) }
{
    for name in more {
        names.add(alloc, name)?;
    }
    Ok(())
}

impl Seen {
    /// Whether a name of the statement is in use.
    pub fn is_duplicate(&self, form: &Form) -> bool
        ensures { result ≡ is_duplicate self.now form.now }
    {
        has_some(&self.nodes, node_in(form)) || has_some(&self.ids, id_in(form))
    }

    /// Adds the names of a statement.
    #[tactic(auto, unfolding(crate::specs::Inner::Faults::seen_after))]
    pub fn add(&mut self, alloc: Global, form: &Form) -> Result<(), NoMemory>
        ensures { OnOk result (AreAlike self.new (seen_after self.old form.now)) }
    {
        add_some(alloc, &mut self.nodes, node_in(form))?;
        add_some(alloc, &mut self.ids, id_in(form))?;
        add_all(alloc, &mut self.parts, parts_in(form))
    }
}
