//! Who wants to be where another is.

ghost use Rattle.std.specs.Prelude.{◌≡◌, ◌++◌, map, IfOk, OnOk};
ghost use Rattle.cluster_model.specs.SuccessivePairs.{successive};
ghost use Rattle.cluster_model.specs.Inner.Colocations.{colocation_of, colocations_in, colocations_of, dependent_at, member_colocation, primary_at};

use crate::resolution::copies::copy_name;
use crate::resolution::directory::Directory;
use crate::resolution::locations::role_of_word;
use cluster_types::{Colocation, LeafId, NoMemory, Role};
use crm_lex::Name;
use crm_parse::{Form, Statement};
use listed::Listed;
use score::Score;
use std::alloc::Global;

/// A leaf in a role: one side of a colocation.
#[derive(Clone, Copy)]
pub(crate) struct Bearer {
    pub leaf: LeafId,
    pub role: Role,
}

/// The side that wants to be somewhere: of a group its first member.
pub fn dependent_at(directory: &Directory<'_>, resource: &Name, role: Role) -> Bearer
    ensures { result ≡ dependent_at directory.now resource.now role }
{
    Bearer {
        leaf: directory.first_named(resource),
        role,
    }
}

/// The side that it wants to be with: of a group its last member.
pub fn primary_at(directory: &Directory<'_>, resource: &Name, role: Role) -> Bearer
    ensures { result ≡ primary_at directory.now resource.now role }
{
    Bearer {
        leaf: directory.last_named(resource),
        role,
    }
}

fn colocation_of(
    alloc: Global,
    id: &Name,
    score: Score,
    dependent: Bearer,
    primary: Bearer,
) -> Result<Colocation, NoMemory>
    ensures { IfOk result (λ colocation. colocation ≡ colocation_of id.now score dependent primary) }
{
    Ok(Colocation {
        id: copy_name(alloc, id)?,
        dependent: dependent.leaf,
        dependent_role: dependent.role,
        primary: primary.leaf,
        primary_role: primary.role,
        score,
    })
}

/// A member of a group must be where the member before it is.
fn member_colocation(
    alloc: Global,
    directory: &Directory<'_>,
    id: &Name,
    before: &Name,
    member: &Name,
) -> Result<Colocation, NoMemory>
    ensures { IfOk result (λ colocation. colocation ≡ member_colocation directory.now id.now (before.now, member.now)) }
{
    let dependent = dependent_at(directory, member, Role::Started);
    let primary = primary_at(directory, before, Role::Started);
    colocation_of(alloc, id, Score::INFINITY, dependent, primary)
}

fn add_group(
    alloc: Global,
    directory: &Directory<'_>,
    colocations: &mut Listed<Colocation>,
    id: &Name,
    members: &[Name],
) -> Result<(), NoMemory>
    ensures { OnOk result (colocations.new ≡ colocations.old ++ map (member_colocation directory.now id.now) (successive members.now)) }
{
    let [first, others @ ..] = members else {
        return Ok(());
    };
    let mut before = first;
    for member in others {
        let colocation = member_colocation(alloc, directory, id, before, member)?;
        colocations.push(colocation)?;
        before = member;
    }
    Ok(())
}

fn add_colocations(
    alloc: Global,
    directory: &Directory<'_>,
    colocations: &mut Listed<Colocation>,
    form: &Form,
) -> Result<(), NoMemory>
    ensures { OnOk result (colocations.new ≡ colocations.old ++ colocations_in directory.now form.now) }
{
    match form {
        Form::Colocation {
            id,
            score,
            dependent,
            primary,
        } => {
            let role = role_of_word(dependent.role);
            let dependent = dependent_at(directory, &dependent.resource, role);
            let role = role_of_word(primary.role);
            let primary = primary_at(directory, &primary.resource, role);
            let colocation = colocation_of(alloc, id, *score, dependent, primary)?;
            Ok(colocations.push(colocation)?)
        }
        Form::Group { id, members, .. } => {
            add_group(alloc, directory, colocations, id, members.as_slice())
        }
        _ => Ok(()),
    }
}

/// The colocations, in the order of the text, those of a group at its statement.
pub fn colocations_of(
    alloc: Global,
    directory: &Directory<'_>,
    statements: &[Statement],
) -> Result<Listed<Colocation>, NoMemory>
    ensures { IfOk result (λ colocations. colocations ≡ colocations_of directory.now statements.now) }
{
    let mut colocations = Listed::new(alloc);
    for statement in statements {
        add_colocations(alloc, directory, &mut colocations, &statement.form)?;
    }
    Ok(colocations)
}
