//! The lines of the own terms of a leaf on a node.

ghost use Rattle.std.specs.Prelude.{◌≡◌, ◌++◌, ◌<◌, ℕ, Option, length, OnOk};
ghost use Rattle.std.specs.List.{flat_map};
ghost use Rattle.placement.specs.Inner.Locations.{is_role};
ghost use Rattle.account_text.specs.Inner.LentParts as lent;
ghost use Rattle.account_text.specs.Inner.Sources.{IsSourceOf};
ghost use Rattle.account_text.specs.Inner.PartsByStates as spec;

use crate::leaf_sources::{LeafSources, Ruled};
use crate::lent_parts::{OriginRef, PartRef};
use crate::part_lines::push_part;
use crate::sources::Sources;
use cluster_types::{Cluster, LeafId, Location, NodeId, Role};
use faults::NoMemory;
use placement::{is_active, is_banned, stickiness_of};
use score::Score;

/// The line of a part, if it counts and isn't 0.
#[tactic(auto, using(crate::proofs::ToldTexts::told_part, crate::proofs::ToldTexts::zero_part, crate::proofs::ToldTexts::no_part))]
pub(crate) fn push_part_if(
    text: &mut Vec<u8>,
    cluster: &Cluster,
    cell: &[u8],
    part: &PartRef,
    counts: bool,
) -> Result<(), NoMemory>
    ensures { OnOk result (text.new.items ≡ text.old.items ++ spec.parts_text cluster.now cell.now (spec.part_where counts (lent.lent_part part.now))) }
{
    if !counts || part.score == (Score { points: 0 }) {
        return Ok(());
    }
    push_part(text, cluster, cell, part)
}

fn push_location(
    text: &mut Vec<u8>,
    cluster: &Cluster,
    cell: &[u8],
    lender: Option<LeafId>,
    rule: &Location,
    role: Role,
    node: NodeId,
) -> Result<(), NoMemory>
    ensures { OnOk result (text.new.items ≡ text.old.items
        ++ spec.parts_text cluster.now cell.now (spec.located_part lender (is_role role) node rule.now)) }
{
    let part = PartRef {
        score: rule.score,
        lender,
        origin: OriginRef::Location(&rule.id),
    };
    push_part_if(
        text,
        cluster,
        cell,
        &part,
        rule.node == node && rule.role == role,
    )
}

fn push_ruled(
    text: &mut Vec<u8>,
    cluster: &Cluster,
    cell: &[u8],
    lender: Option<LeafId>,
    ruled: &Ruled,
    role: Role,
    node: NodeId,
) -> Result<(), NoMemory>
    requires { node < 256 }
    ensures { OnOk result (text.new.items ≡ text.old.items
        ++ spec.parts_text cluster.now cell.now (spec.ruled_part lender (is_role role) node ruled.now)) }
{
    let part = PartRef {
        score: ruled.rule.score,
        lender,
        origin: OriginRef::Location(&ruled.rule.id),
    };
    let counts = ruled.rule.role == role && ruled.nodes.has(node);
    push_part_if(text, cluster, cell, &part, counts)
}

/// The lines of the locations without a rule.
#[tactic(auto, using(lemmas::proofs::Grown::elements_more))]
fn push_all_located(
    text: &mut Vec<u8>,
    cluster: &Cluster,
    cell: &[u8],
    lender: Option<LeafId>,
    located: &[&Location],
    role: Role,
    node: NodeId,
) -> Result<(), NoMemory>
    ensures { OnOk result (text.new.items ≡ text.old.items
        ++ flat_map (λ rule. spec.parts_text cluster.now cell.now (spec.located_part lender (is_role role) node rule.now)) located.now) }
{
    for rule in located {
        push_location(text, cluster, cell, lender, *rule, role, node)?;
    }
    Ok(())
}

/// The lines of the locations with a rule.
#[tactic(auto, using(lemmas::proofs::Grown::elements_more))]
fn push_all_ruled(
    text: &mut Vec<u8>,
    cluster: &Cluster,
    cell: &[u8],
    lender: Option<LeafId>,
    all: &[Ruled],
    role: Role,
    node: NodeId,
) -> Result<(), NoMemory>
    requires { node < 256 }
    ensures { OnOk result (text.new.items ≡ text.old.items
        ++ flat_map (λ ruled. spec.parts_text cluster.now cell.now (spec.ruled_part lender (is_role role) node ruled)) all.now) }
{
    for ruled in all {
        push_ruled(text, cluster, cell, lender, ruled, role, node)?;
    }
    Ok(())
}

/// The lines of what the locations of the leaf in the role give it on the node.
pub(crate) fn push_locations(
    text: &mut Vec<u8>,
    sources: &Sources,
    cell: &[u8],
    lender: Option<LeafId>,
    leaf: LeafId,
    role: Role,
    node: NodeId,
) -> Result<(), NoMemory>
    requires leaf { leaf < length sources.now.cluster.now.leaves }
    requires node { node < length sources.now.cluster.now.nodes }
    ensures { OnOk result (text.new.items ≡ text.old.items ++ spec.parts_text sources.now.cluster.now cell.now
        (spec.location_parts_by sources.now.cluster.now sources.now.states.now.moment lender (is_role role) leaf node)) }
{
    let of_leaf = sources.of_leaf(leaf);
    let cluster = sources.cluster;
    push_all_located(text, cluster, cell, lender, &of_leaf.located, role, node)?;
    push_all_ruled(text, cluster, cell, lender, &of_leaf.ruled, role, node)?;
    Ok(())
}

/// The line of an own term that comes from no location, if it counts.
fn push_own_if(
    text: &mut Vec<u8>,
    cluster: &Cluster,
    cell: &[u8],
    lender: Option<LeafId>,
    score: Score,
    origin: OriginRef,
    counts: bool,
) -> Result<(), NoMemory>
    ensures { OnOk result (text.new.items ≡ text.old.items
        ++ spec.parts_text cluster.now cell.now (spec.own_part_where counts lender (lent.lent_origin origin.entry) score)) }
{
    let part = PartRef {
        score,
        lender,
        origin,
    };
    push_part_if(text, cluster, cell, &part, counts)
}

/// The lines of the own terms of the leaf on the node.
#[tactic(auto, using(crate::proofs::ToldTexts::four_more))]
pub(crate) fn push_own(
    text: &mut Vec<u8>,
    sources: &Sources,
    cell: &[u8],
    lender: Option<LeafId>,
    leaf: LeafId,
    node: NodeId,
) -> Result<(), NoMemory>
    requires leaf { leaf < length sources.now.cluster.now.leaves }
    requires node { node < length sources.now.cluster.now.nodes }
    ensures { OnOk result (text.new.items ≡ text.old.items ++ spec.parts_text sources.now.cluster.now cell.now
        (spec.own_parts_by sources.now.cluster.now sources.now.states.now lender leaf node)) }
{
    let cluster = sources.cluster;
    let active = is_active(cluster, sources.states, leaf, node);
    let banned = is_banned(cluster, sources.states, leaf, node);
    let unnamed = sources.of_leaf(leaf).unnamed.has(node);
    let away = Score::MINUS_INFINITY;
    let stays = stickiness_of(cluster, leaf);
    push_locations(text, sources, cell, lender, leaf, Role::Started, node)?;
    push_own_if(
        text,
        cluster,
        cell,
        lender,
        stays,
        OriginRef::Stickiness,
        active,
    )?;
    push_own_if(text, cluster, cell, lender, away, OriginRef::Ban, banned)?;
    push_own_if(text, cluster, cell, lender, away, OriginRef::OptIn, unnamed)
}
