//! Which decision waits for which.

ghost use Rattle.std.specs.Prelude.{◌≡◌, ◌<◌, ◌++◌, ℕ, List, IfOk, OnOk, length};
ghost use Rattle.std.specs.List.{flat_map};
ghost use Rattle.cluster_types.specs.declared.placement.Decision.{Decision as DecisionOf};
ghost use Rattle.cluster_types.specs.Decisions.{decision_of, is_among, leaf_of};
ghost use Rattle.cluster_types.specs.Valid.{IsValid};
ghost use Rattle.placement.specs.Inner.Flags.{AreFlags};
ghost use Rattle.placement.specs.Inner.Links as spec;

use crate::order::decision_set::DecisionSet;
use crate::order::flags::{flag_at, no_flags, raise_if, slot_of};
use cluster_types::{Colocation, Decision, Edge};
use std::alloc::{AllocError, Global};

/// From what is needed to what needs it.
fn link(needed: Decision, needing: Decision) -> Edge
    requires needed { leaf_of needed < 1000 }
    requires needing { leaf_of needing < 1000 }
    ensures { result ≡ spec.lending_link needed needing }
{
    Edge {
        before: slot_of(needed) as u32,
        after: slot_of(needing) as u32,
    }
}

/// The decisions of the set.
fn decided(alloc: Global, set: &DecisionSet) -> Result<Vec<bool>, AllocError>
    ensures { IfOk result (λ flags. AreFlags (length set.now.cluster.now.leaves) (is_among set.now.list.items) flags.items) }
{
    let mut flags = no_flags(alloc, set.cluster.leaves.len())?;
    for decision in set.list.as_slice() {
        raise_if(&mut flags, *decision, true);
    }
    Ok(flags)
}

/// Adds the link from the place of a leaf to its promote.
fn push_promote_link(links: &mut Vec<Edge>, decision: Decision) -> Result<(), AllocError>
    requires { leaf_of decision < 1000 }
    ensures { OnOk result (links.new.items ≡ links.old.items ++ spec.promote_links decision) }
{
    match decision {
        Decision::Place(leaf) => {
            links.push(link(decision, Decision::Promote(leaf)))?;
            Ok(())
        }
        Decision::Promote(_) => Ok(()),
    }
}

/// Adds the link from the primary of a colocation to its dependent, if the primary is decided.
fn push_rule_link(
    links: &mut Vec<Edge>,
    decided: &[bool],
    rule: &Colocation,
) -> Result<(), AllocError>
    requires primary { leaf_of (decision_of rule.now.primary rule.now.primary_role) < 1000 }
    requires dependent { leaf_of (decision_of rule.now.dependent rule.now.dependent_role) < 1000 }
    ensures { OnOk result ((leaves : ℕ) (ds : List DecisionOf) → AreFlags leaves (is_among ds) decided.now
        → leaf_of (decision_of rule.now.primary rule.now.primary_role) < leaves
        → links.new.items ≡ links.old.items ++ spec.rule_links ds rule.now) }
{
    let primary = Decision::of_role(rule.primary, rule.primary_role);
    if !flag_at(decided, primary) {
        return Ok(());
    }
    let dependent = Decision::of_role(rule.dependent, rule.dependent_role);
    links.push(link(primary, dependent))?;
    Ok(())
}

/// Adds those from the places of leaves to their promotes.
#[tactic(auto, using(lemmas::proofs::Grown::elements_more))]
fn push_promote_links(links: &mut Vec<Edge>, set: &DecisionSet) -> Result<(), AllocError>
    ensures { OnOk result (links.new.items ≡ links.old.items ++ flat_map spec.promote_links set.now.list.items) }
{
    for decision in set.list.as_slice() {
        push_promote_link(links, *decision)?;
    }
    Ok(())
}

/// Adds those from primaries to their dependents.
fn push_rule_links(
    links: &mut Vec<Edge>,
    set: &DecisionSet,
    decided: &[bool],
) -> Result<(), AllocError>
    requires valid { IsValid set.now.cluster.now }
    requires decided { AreFlags (length set.now.cluster.now.leaves) (is_among set.now.list.items) decided.now }
    ensures { OnOk result (links.new.items ≡ links.old.items ++ flat_map (spec.rule_links set.now.list.items) set.now.cluster.now.colocations) }
{
    for rule in set.cluster.colocations.as_slice() {
        push_rule_link(links, decided, rule)?;
    }
    Ok(())
}

/// A link for each need of a decision by another, from the slot of the one that is needed.
pub(crate) fn links_of(alloc: Global, set: &DecisionSet) -> Result<Vec<Edge>, AllocError>
    requires { IsValid set.now.cluster.now }
    ensures { IfOk result (λ links. links.items ≡ spec.links_in set.now.cluster.now set.now.list.items) }
{
    let decided = decided(alloc, set)?;
    let mut links = Vec::new(alloc);
    push_promote_links(&mut links, set)?;
    push_rule_links(&mut links, set, &decided)?;
    Ok(links)
}
