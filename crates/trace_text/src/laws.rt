//! What follows from the definitions of `specs/`, for every cluster.

ghost use Rattle.std.specs.Prelude.{◌≡◌, ℕ, List, true};
ghost use Rattle.cluster_types.specs.declared.cluster.Cluster.{Cluster as ClusterOf};
ghost use Rattle.cluster_types.specs.declared.placement.NoReason.{NoReason as NoReasonOf};
ghost use Rattle.cluster_types.specs.declared.placement.NoReason.TheVariants.{Held};
ghost use Rattle.cluster_types.specs.Valid.{IsValid};
ghost use Rattle.crm_lex.specs.Names.{is_name};
ghost use Rattle.trace_text.specs.RunLines.{HasShortNames, IsReasonNamed};

/// The names of a valid cluster are short enough for `write_line`.
pub fn valid_clusters_have_short_names()
    ensures { (c : ClusterOf) → IsValid c → HasShortNames c }
{}

/// A reason may be written by `write_line` where each rule that it could be has a name.
pub fn reasons_with_names_are_named()
    ensures { (reason : NoReasonOf) → ((id : List ℕ) → reason ≡ Held id → is_name id ≡ true) → IsReasonNamed reason }
{}
