//! What the names in rules stand for.

ghost use Rattle.std.specs.Prelude.{◌≡◌, ◌≤◌, ◌++◌, length, map, slice_get, IfOk, OnOk};
ghost use Rattle.cluster_model.specs.Inner.Directories.{are_there, directory_of, ends_in_directory, span_ends, first_named, groups_of, is_local_by, is_one_group, is_unknown, is_unknown_node, joins_copies, last_named, may_promote, members_in, node_named, nodes_of, resources_of, traits_of};

use crate::expansion::spans::Ends;
use crate::{Leaves, NameTable, Span};
use cluster_types::{Leaf, LeafId, NoMemory, NodeId};
use crm_lex::Name;
use crm_parse::{Form, Statement};
use listed::Listed;
use std::alloc::Global;

/// What the rules ask of a leaf.
#[derive(Clone, Copy)]
pub(crate) struct Traits {
    pub promotable: bool,
    pub cloned: bool,
    pub interleave: bool,
    /// The group that it is a member of, told by the number of its statement.
    pub group: Option<usize>,
}

/// Who is who in a configuration.
#[derive(Drop)]
pub(crate) struct Directory<'n> {
    pub nodes: NameTable<'n, NodeId>,
    pub resources: NameTable<'n, Ends>,
    pub leaves: Listed<Traits>,
}

/// Each node with its number.
fn nodes_of<'n>(
    alloc: Global,
    statements: &'n [Statement],
) -> Result<NameTable<'n, NodeId>, NoMemory>
    requires { length statements.now ≤ 1000000000 }
    ensures { IfOk result (λ nodes. nodes ≡ nodes_of statements.now) }
{
    let mut nodes = NameTable::new(alloc);
    let mut next: NodeId = 0;
    for statement in statements {
        if let Form::Node { name, .. } = &statement.form {
            nodes.add(name, next)?;
            next += 1;
        }
    }
    Ok(nodes)
}

fn ends_of(span: &Span) -> Ends
    ensures { result ≡ span_ends span.now }
{
    Ends {
        first: span.first,
        last: span.last,
    }
}

/// Each resource with its ends.
fn resources_of<'n>(alloc: Global, spans: &'n [Span]) -> Result<NameTable<'n, Ends>, NoMemory>
    ensures { IfOk result (λ resources. resources ≡ resources_of spans.now) }
{
    let mut resources = NameTable::new(alloc);
    for span in spans {
        resources.add(&span.name, ends_of(span))?;
    }
    Ok(resources)
}

fn members_in(form: &Form) -> &[Name]
    ensures { result.now ≡ members_in form.now }
{
    match form {
        Form::Group { members, .. } => members.as_slice(),
        _ => &[],
    }
}

fn add_members<'n>(
    groups: &mut NameTable<'n, usize>,
    number: usize,
    members: &'n [Name],
) -> Result<(), NoMemory>
    ensures { OnOk result (groups.new ≡ groups.old ++ map (λ member. (member, number)) members.now) }
{
    for member in members {
        groups.add(member, number)?;
    }
    Ok(())
}

/// Each member of a group, with the number of the statement of its group.
fn groups_of<'n>(
    alloc: Global,
    statements: &'n [Statement],
) -> Result<NameTable<'n, usize>, NoMemory>
    ensures { IfOk result (λ groups. groups ≡ groups_of statements.now) }
{
    let mut groups = NameTable::new(alloc);
    let mut number: usize = 0;
    for statement in statements {
        add_members(&mut groups, number, members_in(&statement.form))?;
        number += 1;
    }
    Ok(groups)
}

fn traits_of(groups: &NameTable<'_, usize>, leaf: &Leaf) -> Traits
    ensures { result ≡ traits_of groups.now leaf.now }
{
    Traits {
        promotable: leaf.promotable,
        cloned: leaf.cloned,
        interleave: leaf.interleave,
        group: groups.get(&leaf.name),
    }
}

fn all_traits(
    alloc: Global,
    groups: &NameTable<'_, usize>,
    leaves: &[Leaf],
) -> Result<Listed<Traits>, NoMemory>
    ensures { IfOk result (λ all. all ≡ map (traits_of groups.now) leaves.now) }
{
    let mut all = Listed::new(alloc);
    for leaf in leaves {
        all.push(traits_of(groups, leaf))?;
    }
    Ok(all)
}

#[tactic(auto, unfolding(crate::specs::Inner::Directories::directory_of))]
pub fn directory_of<'n>(
    alloc: Global,
    leaves: &'n Leaves,
    statements: &'n [Statement],
) -> Result<Directory<'n>, NoMemory>
    requires { length statements.now ≤ 1000000000 }
    ensures { IfOk result (λ directory. directory ≡ directory_of leaves.now statements.now) }
{
    let groups = groups_of(alloc, statements)?;
    Ok(Directory {
        nodes: nodes_of(alloc, statements)?,
        resources: resources_of(alloc, leaves.spans.as_slice())?,
        leaves: all_traits(alloc, &groups, leaves.leaves.as_slice())?,
    })
}

fn is_one_group(one: Option<usize>, other: Option<usize>) -> bool
    ensures { result ≡ is_one_group one other }
{
    match (one, other) {
        (Some(one), Some(other)) => one == other,
        _ => false,
    }
}

fn joins_copies(first: &Traits, later: &Traits) -> bool
    ensures { result ≡ joins_copies first.now later.now }
{
    first.cloned && later.cloned && (later.interleave || is_one_group(first.group, later.group))
}

impl<'n> Directory<'n> {
    fn are_there(&self, ends: &Ends) -> bool
        ensures { result ≡ are_there self.now ends.now }
    {
        let leaves = self.leaves.len();
        (ends.first as usize) < leaves && (ends.last as usize) < leaves
    }

    /// The ends of a resource. One whose leaves aren't there isn't there itself.
    fn ends_named(&self, resource: &Name) -> Option<Ends>
        ensures { result ≡ ends_in_directory self.now resource.now }
    {
        let ends = self.resources.get(resource)?;
        if self.are_there(&ends) {
            Some(ends)
        } else {
            None
        }
    }

    pub fn is_unknown(&self, resource: &Name) -> bool
        ensures { result ≡ is_unknown self.now resource.now }
    {
        self.ends_named(resource).is_none()
    }

    pub fn is_unknown_node(&self, node: &Name) -> bool
        ensures { result ≡ is_unknown_node self.now node.now }
    {
        self.nodes.get(node).is_none()
    }

    pub fn node_named(&self, node: &Name) -> NodeId
        ensures { result ≡ node_named self.now node.now }
    {
        self.nodes.get(node).unwrap_or(0)
    }

    pub fn first_named(&self, resource: &Name) -> LeafId
        ensures { result ≡ first_named self.now resource.now }
    {
        match self.ends_named(resource) {
            Some(ends) => ends.first,
            None => 0,
        }
    }

    pub fn last_named(&self, resource: &Name) -> LeafId
        ensures { result ≡ last_named self.now resource.now }
    {
        match self.ends_named(resource) {
            Some(ends) => ends.last,
            None => 0,
        }
    }

    fn traits_at(&self, leaf: LeafId) -> Option<Traits>
        ensures { result ≡ slice_get self.now.leaves leaf }
    {
        self.leaves.as_slice().get(leaf as usize).copied()
    }

    /// Whether the leaf is there and may be promoted.
    pub fn may_promote(&self, leaf: LeafId) -> bool
        ensures { result ≡ may_promote self.now leaf }
    {
        match self.traits_at(leaf) {
            Some(traits) => traits.promotable,
            None => false,
        }
    }

    /// Whether an order of the two leaves joins the copies on one node only.
    pub fn is_local(&self, first: LeafId, later: LeafId) -> bool
        ensures { result ≡ is_local_by self.now first later }
    {
        match (self.traits_at(first), self.traits_at(later)) {
            (Some(first), Some(later)) => joins_copies(&first, &later),
            _ => false,
        }
    }
}
