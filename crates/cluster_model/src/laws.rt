//! What follows from the definitions of `specs/`, for every configuration.

ghost use Rattle.std.specs.Prelude.{◌≡◌, List, Ok, Contains, true};
ghost use Rattle.cluster_model.specs.declared.expansion.leaves.Leaves.{Leaves};
ghost use Rattle.cluster_model.specs.Expansion.{expansion_of};
ghost use Rattle.cluster_types.specs.declared.cluster.Cluster.{Cluster};
ghost use Rattle.cluster_types.specs.declared.rules.Colocation.{Colocation};
ghost use Rattle.cluster_types.specs.declared.rules.Location.{Location};
ghost use Rattle.cluster_types.specs.declared.rules.Order.{Order};
ghost use Rattle.cluster_types.specs.declared.rules.RuleLocation.{RuleLocation};
ghost use Rattle.cluster_types.specs.Decisions.{NeedsHaveNoLoop};
ghost use Rattle.cluster_types.specs.Numbers.{StepsHaveNoLoop};
ghost use Rattle.cluster_types.specs.Precedence.{is_giving};
ghost use Rattle.cluster_types.specs.Valid.{IsValid, FitsRole, MayHaveWord};
ghost use Rattle.crm_lex.specs.declared.line.Line.{Line};
ghost use Rattle.crm_parse.specs.declared.statement.Crm.{Crm};
ghost use Rattle.crm_parse.specs.declared.statement.Statement.{Statement};
ghost use Rattle.crm_parse.specs.Statements.{statements_of};
ghost use Rattle.cluster_model.specs.Resolution.{resolution_of};

/// The rules of a cluster that a configuration resolves to have no loop.
pub fn resolved_rules_have_no_loop()
    ensures needs { (leaves : Leaves) (statements : List Statement) (c : Cluster) → resolution_of leaves statements ≡ Ok c → NeedsHaveNoLoop c }
    ensures steps { (leaves : Leaves) (statements : List Statement) (c : Cluster) → resolution_of leaves statements ≡ Ok c → StepsHaveNoLoop c }
{}

/// The rules of a cluster that a configuration resolves to name leaves that are there, and promote and demote none that isn't promotable. No
/// order has a stop or a demote wait for a start or a promote.
pub fn resolved_rules_name_able_leaves()
    ensures locations { (leaves : Leaves) (statements : List Statement) (c : Cluster) → resolution_of leaves statements ≡ Ok c
        → (l : Location) → Contains c.locations l → FitsRole c l.leaf l.role }
    ensures rule_locations { (leaves : Leaves) (statements : List Statement) (c : Cluster) → resolution_of leaves statements ≡ Ok c
        → (l : RuleLocation) → Contains c.rule_locations l → FitsRole c l.leaf l.role }
    ensures dependents { (leaves : Leaves) (statements : List Statement) (c : Cluster) → resolution_of leaves statements ≡ Ok c
        → (col : Colocation) → Contains c.colocations col → FitsRole c col.dependent col.dependent_role }
    ensures primaries { (leaves : Leaves) (statements : List Statement) (c : Cluster) → resolution_of leaves statements ≡ Ok c
        → (col : Colocation) → Contains c.colocations col → FitsRole c col.primary col.primary_role }
    ensures firsts { (leaves : Leaves) (statements : List Statement) (c : Cluster) → resolution_of leaves statements ≡ Ok c
        → (o : Order) → Contains c.orders o → MayHaveWord c o.first o.first_op }
    ensures thens { (leaves : Leaves) (statements : List Statement) (c : Cluster) → resolution_of leaves statements ≡ Ok c
        → (o : Order) → Contains c.orders o → MayHaveWord c o.then_leaf o.then_op }
    ensures upward { (leaves : Leaves) (statements : List Statement) (c : Cluster) → resolution_of leaves statements ≡ Ok c
        → (o : Order) → Contains c.orders o → is_giving o.first_op ≡ true → is_giving o.then_op ≡ true }
{}

/// The cluster that the lines of a configuration resolve to is valid.
pub fn resolved_clusters_are_valid()
    ensures { (lines : List Line) (crm : Crm) (leaves : Leaves) (c : Cluster) → statements_of lines ≡ Ok crm → expansion_of crm.statements ≡ Ok leaves
        → resolution_of leaves crm.statements ≡ Ok c → IsValid c }
{}
