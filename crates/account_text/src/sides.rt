//! The colocations of which a decision is a side, and what they say of it on a node.

ghost use Rattle.std.specs.Prelude.{◌≡◌, ◌++◌, OnOk, IfOk};
ghost use Rattle.std.specs.List.{flat_map};
ghost use Rattle.cluster_types.specs.Tables.{targets_of};
ghost use Rattle.account_text.specs.Inner.Sides as spec;
ghost use Rattle.account_text.specs.Inner.PartsByStates as told;

use crate::lent_parts::{OriginRef, PartRef};
use crate::own_parts::push_part_if;
use cluster_types::{Cluster, Colocation, Decision, NodeId, Table};
use faults::NoMemory;
use placement::{counts, has_primary, keeps_apart};
use std::alloc::{AllocError, Global};

fn is_side(rule: &Colocation, decision: Decision) -> bool
    ensures { result ≡ spec.is_side decision rule.now }
{
    decision.is_dependent_in(rule) || decision.is_primary_in(rule)
}

/// The colocations of which the decision is a side, in their order.
pub(crate) fn sides_of(
    alloc: Global,
    cluster: &Cluster,
    decision: Decision,
) -> Result<Vec<&Colocation>, AllocError>
    ensures { IfOk result (λ sides. spec.AreColocationsOf decision cluster.now.colocations sides.items) }
{
    let mut sides = Vec::new(alloc);
    for rule in cluster.colocations.as_slice() {
        if !is_side(rule, decision) {
            continue;
        }
        sides.push(rule)?;
    }
    Ok(sides)
}

/// The line of a colocation, if it counts for the decision on the node.
fn push_preference(
    text: &mut Vec<u8>,
    cluster: &Cluster,
    cell: &[u8],
    rule: &Colocation,
    table: &Table,
    decision: Decision,
    node: NodeId,
) -> Result<(), NoMemory>
    ensures { OnOk result (text.new.items ≡ text.old.items
        ++ told.parts_text cluster.now cell.now (spec.preference_part (targets_of table.now) decision node rule.now)) }
{
    let part = PartRef {
        score: rule.score,
        lender: None,
        origin: OriginRef::Colocation(&rule.id),
    };
    push_part_if(
        text,
        cluster,
        cell,
        &part,
        counts(rule, table, decision, node),
    )
}

/// The lines of the colocations that count for the decision on the node.
#[tactic(auto, using(lemmas::proofs::Grown::elements_more))]
pub(crate) fn push_preferences(
    text: &mut Vec<u8>,
    cluster: &Cluster,
    cell: &[u8],
    sides: &[&Colocation],
    table: &Table,
    decision: Decision,
    node: NodeId,
) -> Result<(), NoMemory>
    ensures { OnOk result (text.new.items ≡ text.old.items
        ++ flat_map (λ rule. told.parts_text cluster.now cell.now (spec.preference_part (targets_of table.now) decision node rule.now)) sides.now) }
{
    for rule in sides {
        push_preference(text, cluster, cell, *rule, table, decision, node)?;
    }
    Ok(())
}

/// The first of these colocations whose primary must hold its role on the node, and doesn't.
#[tactic(auto, using(crate::proofs::FirstOnes::found_at, crate::proofs::FirstOnes::none_yet))]
pub(crate) fn first_missing<'c>(
    sides: &[&'c Colocation],
    table: &Table,
    decision: Decision,
    node: NodeId,
) -> Option<&'c Colocation>
    ensures { result ≡ spec.first_missing (targets_of table.now) decision node sides.now }
{
    for rule in sides {
        if !has_primary(*rule, table, decision, node) {
            return Some(*rule);
        }
    }
    None
}

/// The first of these colocations whose sides must be apart, and would be together on the node.
#[tactic(auto, using(crate::proofs::FirstOnes::found_at, crate::proofs::FirstOnes::none_yet))]
pub(crate) fn first_joined<'c>(
    sides: &[&'c Colocation],
    table: &Table,
    decision: Decision,
    node: NodeId,
) -> Option<&'c Colocation>
    ensures { result ≡ spec.first_joined (targets_of table.now) decision node sides.now }
{
    for rule in sides {
        if !keeps_apart(*rule, table, decision, node) {
            return Some(*rule);
        }
    }
    None
}
