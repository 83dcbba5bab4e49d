ghost use Rattle.std.specs.Prelude.{◌≡◌, ◌≤◌, IfOk, length};
ghost use Rattle.faults.specs.Reading.{Gives};
ghost use Rattle.cluster_model.specs.Expansion.{expansion_of};
ghost use Rattle.cluster_model.specs.Inner.Expansion.{expansion_by, leaves_with_spans};

use crate::expansion::leaf::leaves_of;
use crate::expansion::leaf_checks::fault_of;
use crate::expansion::spans::spans_of;
use crate::{ExpandFault, Leaves};
use cluster_types::NoMemory;
use crm_parse::{Crm, Statement};
use std::alloc::Global;

fn leaves_with_spans(alloc: Global, statements: &[Statement]) -> Result<Leaves, NoMemory>
    requires { length statements.now ≤ 1000000000 }
    ensures leaves { IfOk result (λ leaves. leaves ≡ leaves_with_spans statements.now) }
    ensures few { IfOk result (λ leaves. length leaves.leaves ≤ length statements.now) }
{
    let leaves = leaves_of(alloc, statements)?;
    let spans = spans_of(alloc, leaves.as_slice(), statements)?;
    Ok(Leaves { leaves, spans })
}

/// The leaves of some statements, or the first fault.
fn expansion_by(alloc: Global, statements: &[Statement]) -> Result<Leaves, ExpandFault>
    requires { length statements.now ≤ 1000000000 }
    ensures leaves { Gives (λ leaves. leaves) result (expansion_by statements.now) }
    ensures few { IfOk result (λ leaves. length leaves.leaves ≤ length statements.now) }
{
    if let Some(fault) = fault_of(alloc, statements)? {
        return Err(fault);
    }
    Ok(leaves_with_spans(alloc, statements)?)
}

/// Makes the leaves of a configuration, as `parse` gives it (Pacemaker Explained, "Groups" and "Clones"). Each primitive is one leaf, with
/// what its own statement, its group, its clone and the defaults say of it. There are at most 10^9 statements; a text of 16 MiB has fewer.
///
/// A fault is that of the first statement that is at fault, at its line: `DuplicateName` where an earlier node has its name, or an earlier
/// resource or rule its id; `UnknownName` where a member or a child isn't the id of a resource; `NestedTwice` where a member isn't a
/// primitive, or a child is neither a primitive nor a group; `EmptyGroup` at a group without members; `MemberTwice` where a member or a
/// child belongs already to this or an earlier group or clone; and `UnsupportedMeta` where the child of a promotable clone is a group.
/// Where a statement has several causes, the first in this order counts. `NoMemory` comes when memory runs out.
#[tactic(auto, using(crate::proofs::ExpansionSaid::given_as_said))]
pub fn expand(alloc: Global, crm: &Crm) -> Result<Leaves, ExpandFault>
    requires { length crm.now.statements ≤ 1000000000 }
    ensures leaves { Gives (λ leaves. leaves) result (expansion_of crm.now.statements) }
    ensures few { IfOk result (λ leaves. length leaves.leaves ≤ length crm.now.statements) }
{
    expansion_by(alloc, crm.statements.as_slice())
}
