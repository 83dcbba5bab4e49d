//! What is left of a table from which roles are taken away.

ghost use Rattle.std.specs.Prelude.{◌≡◌, ◌<◌, ℕ, true, length};
ghost use Rattle.cluster_types.specs.Tables.{holds_role, targets_of};
ghost use Rattle.placement.specs.Inner.Taking as spec;

use cluster_types::{LeafId, NodeId, Role, Table, Target};

/// A table, and whether a role was taken away from it.
#[derive(Drop)]
pub struct Left {
    pub table: Table,
    pub changed: bool,
}

/// What is left of a target without the role.
fn below(role: Role) -> Target
    ensures { result ≡ spec.below role }
{
    match role {
        Role::Started => Target::Nowhere,
        Role::Promoted => Target::Started,
    }
}

impl Left {
    /// Takes the role of a leaf away from a node, where the leaf holds it. A leaf that isn't started isn't promoted either.
    pub fn without(self, leaf: LeafId, role: Role, node: NodeId) -> Left
        requires { holds_role (targets_of self.table) leaf role node ≡ true }
        ensures nodes { result.table.nodes ≡ self.table.nodes }
        ensures size { length result.table.targets ≡ length self.table.targets }
        ensures targets { (r n : ℕ) → targets_of result.table r n ≡ spec.without (targets_of self.table) leaf role node r n }
        ensures fewer { spec.roles_in result.table.targets < spec.roles_in self.table.targets }
        ensures changed { result.changed ≡ true }
    {
        Left {
            table: self.table.with_target(leaf, node, below(role)),
            changed: true,
        }
    }
}
