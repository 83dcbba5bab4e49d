ghost use Rattle.std.specs.Prelude.{◌≡◌, ◌++◌, map, OnOk, IfOk};
ghost use Rattle.cluster_model.specs.Inner.Groups.{grouped_by, grouped_in, members_of, membership_of};

use crate::expansion::clones::InClone;
use crate::expansion::meta::{Meta, meta_of};
use crate::name_table::NameTable;
use cluster_types::NoMemory;
use crm_lex::Name;
use crm_parse::{Form, Statement};
use std::alloc::Global;

/// What a group gives to a member.
#[derive(Clone, Copy)]
pub(crate) struct InGroup {
    pub meta: Meta,
    /// Whether it stands after the first member.
    pub follower: bool,
    /// What the clone of the group gives, where it is in one.
    pub clone: Option<InClone>,
}

fn add_followers<'n>(
    grouped: &mut NameTable<'n, InGroup>,
    group: &InGroup,
    members: &'n [Name],
) -> Result<(), NoMemory>
    ensures { OnOk result (grouped.new ≡ grouped.old ++ map (λ member. (member, group.now)) members.now) }
{
    for member in members {
        grouped.add(member, *group)?;
    }
    Ok(())
}

fn place(meta: &Meta, follower: bool, clone: &Option<InClone>) -> InGroup
    ensures { result ≡ membership_of meta.now clone.now follower }
{
    InGroup {
        meta: *meta,
        follower,
        clone: *clone,
    }
}

fn add_members<'n>(
    grouped: &mut NameTable<'n, InGroup>,
    meta: &Meta,
    clone: &Option<InClone>,
    members: &'n [Name],
) -> Result<(), NoMemory>
    ensures { OnOk result (grouped.new ≡ grouped.old ++ members_of meta.now clone.now members.now) }
{
    let [first, others @ ..] = members else {
        return Ok(());
    };
    grouped.add(first, place(meta, false, clone))?;
    add_followers(grouped, &place(meta, true, clone), others)
}

fn add_grouped<'n>(
    cloned: &NameTable<'_, InClone>,
    grouped: &mut NameTable<'n, InGroup>,
    form: &'n Form,
) -> Result<(), NoMemory>
    ensures { OnOk result (grouped.new ≡ grouped.old ++ grouped_in cloned.now form.now) }
{
    let Form::Group {
        id,
        members,
        meta,
        ..
    } = form
    else {
        return Ok(());
    };
    let meta = meta_of(meta.as_slice());
    let clone = cloned.get(id);
    add_members(grouped, &meta, &clone, members.as_slice())
}

/// Each member of a group, where these are cloned.
pub fn grouped_by<'n>(
    alloc: Global,
    cloned: &NameTable<'_, InClone>,
    statements: &'n [Statement],
) -> Result<NameTable<'n, InGroup>, NoMemory>
    ensures { IfOk result (λ grouped. grouped ≡ grouped_by cloned.now statements.now) }
{
    let mut grouped = NameTable::new(alloc);
    for statement in statements {
        add_grouped(cloned, &mut grouped, &statement.form)?;
    }
    Ok(grouped)
}
