//! What holds of the leaves of every configuration.

ghost use Rattle.cluster_model.specs.Laws.{EachPrimitiveIsALeaf, NamesDiffer};

/// The leaves of a configuration are its primitives, in the order of the text.
#[tactic(auto, using(crate::proofs::LeafLaws::each_primitive))]
pub fn each_primitive_is_a_leaf()
    ensures { EachPrimitiveIsALeaf }
{}

/// No two leaves of a configuration that isn't at fault have one name.
#[tactic(auto, using(crate::proofs::NameLaws::said_names_differ))]
pub fn leaf_names_differ()
    ensures { NamesDiffer }
{}
