//! The lines of the terms of a decision on a node, before colocations.

ghost use Rattle.std.specs.Prelude.{◌≡◌, ◌++◌, ◌<◌, ℕ, List, Contains, length, IfOk, OnOk};
ghost use Rattle.std.specs.List.{flat_map};
ghost use Rattle.cluster_types.specs.declared.journal.Promotion.{Promotion as PromotionOf};
ghost use Rattle.cluster_types.specs.Valid.{IsValid};
ghost use Rattle.placement.specs.Inner.LendingRows.{all_joined};
ghost use Rattle.placement.specs.Promotions.{AreSaid};
ghost use Rattle.decision_account.specs.Parts as parts;
ghost use Rattle.account_text.specs.Inner.PartsByStates as spec;

use crate::lent_parts::{OriginRef, PartRef};
use crate::own_parts::{push_locations, push_own, push_part_if};
use crate::sources::Sources;
use cluster_types::{LeafId, NodeId, Role};
use faults::NoMemory;
use placement::wish;
use score::Score;

/// Who lends a term of the one leaf to the other: nobody where it is its own.
fn lender_of(leaf: LeafId, source: LeafId) -> Option<LeafId>
    ensures { result ≡ parts.lender_of leaf source }
{
    if source == leaf { None } else { Some(source) }
}

/// The lines of placing the leaf on the node, where these leaves have joined.
#[tactic(auto, using(lemmas::proofs::Grown::elements_more))]
pub(crate) fn push_place(
    text: &mut Vec<u8>,
    sources: &Sources,
    cell: &[u8],
    joined: &[LeafId],
    leaf: LeafId,
    node: NodeId,
) -> Result<(), NoMemory>
    requires leaves { (s : ℕ) → Contains joined.now s → s < length sources.now.cluster.now.leaves }
    requires node { node < length sources.now.cluster.now.nodes }
    ensures { OnOk result (text.new.items ≡ text.old.items ++ flat_map (λ s. spec.parts_text sources.now.cluster.now cell.now
        (spec.own_parts_by sources.now.cluster.now sources.now.states.now (parts.lender_of leaf s) s node)) joined.now) }
{
    for source in joined {
        push_own(text, sources, cell, lender_of(leaf, *source), *source, node)?;
    }
    Ok(())
}

/// The lines of promoting the leaf on the node, which wants it so much.
#[tactic(auto, using(crate::proofs::ToldTexts::two_more))]
pub(crate) fn push_promote(
    text: &mut Vec<u8>,
    sources: &Sources,
    cell: &[u8],
    wanted: Score,
    leaf: LeafId,
    node: NodeId,
) -> Result<(), NoMemory>
    requires leaf { leaf < length sources.now.cluster.now.leaves }
    requires node { node < length sources.now.cluster.now.nodes }
    ensures { OnOk result (text.new.items ≡ text.old.items ++ spec.parts_text sources.now.cluster.now cell.now
        (spec.promote_parts_by sources.now.cluster.now sources.now.states.now.moment wanted leaf node)) }
{
    let part = PartRef {
        score: wanted,
        lender: None,
        origin: OriginRef::Promotion,
    };
    push_part_if(text, sources.cluster, cell, &part, true)?;
    push_locations(text, sources, cell, None, leaf, Role::Promoted, node)
}
