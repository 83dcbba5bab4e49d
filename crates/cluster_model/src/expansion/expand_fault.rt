ghost use Rattle.std.specs.Prelude.{◌≡◌};
ghost use Rattle.cluster_model.specs.Causes.{expand_name};

use faults::Fault;
use thiserror::Error;

/// Why the groups and clones of a configuration don't stand for leaves.
#[derive(Clone, Copy, Debug, PartialEq, Eq, Error)]
pub enum ExpandCause {
    /// An earlier node has the name, or an earlier resource or rule the id.
    #[error("A node has the name of an earlier node, or a resource, location, colocation or order has the id of an \
        earlier one.")]
    DuplicateName,
    /// A member or a child isn't the id of a resource.
    #[error("There is no node, resource, member or child of that name.")]
    UnknownName,
    /// A member isn't a primitive, or a child is neither a primitive nor a group.
    #[error("A group has a member that is no primitive, or a clone has a child that is neither a primitive nor a \
        group.")]
    NestedTwice,
    /// The group has no member.
    #[error("The group has no member.")]
    EmptyGroup,
    /// A member or a child belongs already to this or an earlier group or clone.
    #[error("A member or child belongs to this or an earlier group or clone already.")]
    MemberTwice,
    /// The child of a promotable clone is a group.
    #[error("A promotable clone has a group.")]
    UnsupportedMeta,
}

/// The name of a cause, as it is printed: that of its variant.
pub fn expand_name(cause: ExpandCause) -> &'static str
    ensures { result.now ≡ expand_name cause }
{
    match cause {
        ExpandCause::DuplicateName => "DuplicateName",
        ExpandCause::UnknownName => "UnknownName",
        ExpandCause::NestedTwice => "NestedTwice",
        ExpandCause::EmptyGroup => "EmptyGroup",
        ExpandCause::MemberTwice => "MemberTwice",
        ExpandCause::UnsupportedMeta => "UnsupportedMeta",
    }
}

/// Why there are no leaves: out of memory, or a line and a cause. The line is that of the first statement that is at fault, and the cause the
/// first of its causes in their order.
pub type ExpandFault = Fault<ExpandCause>;
