//! The text of how the decisions of a placement came about.

ghost use Rattle.std.specs.Prelude.{◌≡◌, ◌++◌, ◌∷◌, ◌<◌, [], List, Contains, length, map, IfOk, OnOk};
ghost use Rattle.std.specs.List.{flat_map, range_with_len};
ghost use Rattle.cluster_types.specs.declared.journal.Event.{Event as EventOf};
ghost use Rattle.cluster_types.specs.declared.journal.Promotion.{Promotion as PromotionOf};
ghost use Rattle.cluster_types.specs.declared.placement.Decided.{Decided as DecidedOf};
ghost use Rattle.cluster_types.specs.Decisions.{leaf_of};
ghost use Rattle.cluster_types.specs.Plans.{IsPlaced};
ghost use Rattle.cluster_types.specs.Tables.{targets_of};
ghost use Rattle.cluster_types.specs.UnpackedStates.{states_of};
ghost use Rattle.cluster_types.specs.Valid.{IsValid};
ghost use Rattle.decision_account.specs.Accounts as accounts;
ghost use Rattle.placement.specs.Loads.{IsLoaded};
ghost use Rattle.placement.specs.Steps.{Chooses, Tell};
ghost use Rattle.placement.specs.Scores.{scores_of};
ghost use Rattle.account_text.specs.Inner.AccountSoFar.{AreAccounted, decisions_made};
ghost use Rattle.account_text.specs.Journal.{HavePlacement};
ghost use Rattle.account_text.specs.Inner.AccountInputs.{ReadsCluster};
ghost use Rattle.account_text.specs.Inner.PartsByStates as told;

use crate::account_inputs::Read;
use crate::base_parts::{push_place, push_promote};
use crate::decision_asked::Asked;
use crate::held_cells::push_held;
use crate::judging::verdict_on;
use crate::last_chosen::last_chosen;
use crate::sides::{push_preferences, sides_of};
use crate::verdict_lines::push_verdict;
use cluster_types::{Cluster, Decided, Decision, LeafId, NodeId, Placed, States};
use faults::NoMemory;
use placement::{
    ChosenNodes, LoadedTable, ScoreTable, chosen_nodes, may_stay, pinned_table, target_by, wish,
};
use std::alloc::Global;
use trace_text::{push_decision, push_leaf_on, push_targets, push_total};

/// The lines of the terms of the decision on the node, before colocations.
fn push_base(
    text: &mut Vec<u8>,
    read: &Read,
    cell: &[u8],
    joined: &[LeafId],
    decision: Decision,
    node: NodeId,
) -> Result<(), NoMemory>
    requires read { ReadsCluster read.now }
    requires leaf { leaf_of decision < length read.now.known.cluster.now.leaves }
    requires node { node < length read.now.known.cluster.now.nodes }
    requires joined { joined.now ≡ told.joined_by read.now.known.cluster.now read.now.known.states.now decision }
    ensures { OnOk result (text.new.items ≡ text.old.items ++ told.parts_text read.now.known.cluster.now cell.now
        (told.base_parts_by read.now.known.cluster.now read.now.known.states.now decision node)) }
{
    match decision {
        Decision::Place(leaf) => push_place(text, &read.sources, cell, joined, leaf, node),
        Decision::Promote(leaf) => {
            let wanted = wish(read.known.cluster, &read.said, leaf, node);
            push_promote(text, &read.sources, cell, wanted, leaf, node)
        }
    }
}

/// The lines of the decision on the node.
fn push_node(
    alloc: Global,
    text: &mut Vec<u8>,
    read: &Read,
    asked: &Asked,
    joined: &[LeafId],
    node: NodeId,
) -> Result<(), NoMemory>
    requires read { ReadsCluster read.now }
    requires known { asked.now.known.now ≡ read.now.known }
    requires node { node < length asked.now.known.now.cluster.now.nodes }
    requires joined { joined.now ≡ told.joined_by asked.now.known.now.cluster.now asked.now.known.now.states.now asked.now.decision }
    ensures { OnOk result ((es : List EventOf) (promotions : List PromotionOf)
        → Tell asked.now.known.now.cluster.now es promotions asked.now.known.now.states.now asked.now.known.now.scores.now
        → text.new.items ≡ text.old.items ++ accounts.why_text asked.now.known.now.cluster.now
        (accounts.node_lines asked.now.known.now.cluster.now es promotions (targets_of asked.now.loaded.now.table) asked.now.decision node)) }
{
    let cluster = asked.known.cluster;
    let decision = asked.decision;
    let leaf = decision.leaf();
    let mut cell = Vec::new(alloc);
    push_leaf_on(&mut cell, cluster, leaf, node as usize)?;
    push_base(text, read, &cell, joined, decision, node)?;
    push_preferences(
        text,
        cluster,
        &cell,
        asked.sides,
        &asked.loaded.table,
        decision,
        node,
    )?;
    let total = asked.chosen.totals[node as usize];
    push_total(text, cluster, leaf, node as usize, total)?;
    push_verdict(text, cluster, &cell, &verdict_on(asked, node))?;
    Ok(())
}

/// The lines of the decision, node by node.
fn push_nodes(
    alloc: Global,
    text: &mut Vec<u8>,
    read: &Read,
    asked: &Asked,
    joined: &[LeafId],
) -> Result<(), NoMemory>
    requires read { ReadsCluster read.now }
    requires known { asked.now.known.now ≡ read.now.known }
    requires joined { joined.now ≡ told.joined_by asked.now.known.now.cluster.now asked.now.known.now.states.now asked.now.decision }
    ensures { OnOk result ((es : List EventOf) (promotions : List PromotionOf)
        → Tell asked.now.known.now.cluster.now es promotions asked.now.known.now.states.now asked.now.known.now.scores.now
        → text.new.items ≡ text.old.items ++ flat_map (λ n. accounts.why_text asked.now.known.now.cluster.now
        (accounts.node_lines asked.now.known.now.cluster.now es promotions (targets_of asked.now.loaded.now.table) asked.now.decision n))
        (range_with_len 0 (length asked.now.known.now.cluster.now.nodes))) }
{
    for node in 0..asked.known.cluster.nodes.len() as u32 {
        push_node(alloc, text, read, asked, joined, node)?;
    }
    Ok(())
}

/// The lines of the decision, which chooses these nodes of a table.
fn push_account(
    alloc: Global,
    text: &mut Vec<u8>,
    read: &Read,
    loaded: &LoadedTable,
    chosen: &ChosenNodes,
    decision: Decision,
) -> Result<(), NoMemory>
    requires read { ReadsCluster read.now }
    requires leaf { leaf_of decision < length read.now.known.cluster.now.leaves }
    requires loaded { IsLoaded read.now.known.cluster.now loaded.now.table loaded.now.loads.items }
    requires chosen { (es : List EventOf) (promotions : List PromotionOf)
        → Tell read.now.known.cluster.now es promotions read.now.known.states.now read.now.known.scores.now
        → Chooses read.now.known.cluster.now es promotions (targets_of loaded.now.table) decision chosen.now.totals.items chosen.now.nodes }
    ensures { OnOk result ((es : List EventOf) (promotions : List PromotionOf)
        → Tell read.now.known.cluster.now es promotions read.now.known.states.now read.now.known.scores.now
        → text.new.items ≡ text.old.items ++ accounts.why_text read.now.known.cluster.now
        (accounts.decision_lines read.now.known.cluster.now es promotions (targets_of loaded.now.table) decision)) }
{
    let cluster = read.known.cluster;
    let joined = read.joined_by(alloc, decision)?;
    let sides = sides_of(alloc, cluster, decision)?;
    let asked = Asked {
        known: &read.known,
        loaded,
        decision,
        stays: may_stay(&read.known, decision.leaf()),
        sides: &sides,
        chosen,
        last: last_chosen(&chosen.totals, &loaded.loads, &chosen.nodes),
    };
    push_decision(text, cluster, decision)?;
    push_nodes(alloc, text, read, &asked, &joined)?;
    Ok(())
}

/// The lines of the decision, and the table that it leaves.
fn push_made(
    alloc: Global,
    text: &mut Vec<u8>,
    read: &Read,
    loaded: LoadedTable,
    decision: Decision,
) -> Result<LoadedTable, NoMemory>
    requires read { ReadsCluster read.now }
    requires leaf { leaf_of decision < length read.now.known.cluster.now.leaves }
    requires loaded { IsLoaded read.now.known.cluster.now loaded.table loaded.loads.items }
    ensures loaded { IfOk result (λ after. IsLoaded read.now.known.cluster.now after.table after.loads.items) }
    ensures text { IfOk result (λ after. (es : List EventOf) (promotions : List PromotionOf)
        → Tell read.now.known.cluster.now es promotions read.now.known.states.now read.now.known.scores.now
        → AreAccounted read.now.known.cluster.now es promotions (targets_of loaded.table) (decision ∷ []) text.old.items text.new.items (targets_of after.table)) }
{
    let chosen = chosen_nodes(alloc, &read.known, &loaded, decision)?;
    push_account(alloc, text, read, &loaded, &chosen, decision)?;
    let target = target_by(decision);
    Ok(loaded.with_targets(read.known.cluster, decision.leaf(), &chosen.nodes, target))
}

/// The lines of all decisions, and the table that they leave.
fn push_all_made(
    alloc: Global,
    text: &mut Vec<u8>,
    read: &Read,
    loaded: LoadedTable,
    decided: &[Decided],
) -> Result<LoadedTable, NoMemory>
    requires read { ReadsCluster read.now }
    requires leaves { (x : DecidedOf) → Contains decided.now x → leaf_of x.decision < length read.now.known.cluster.now.leaves }
    requires loaded { IsLoaded read.now.known.cluster.now loaded.table loaded.loads.items }
    ensures text { IfOk result (λ after. (es : List EventOf) (promotions : List PromotionOf)
        → Tell read.now.known.cluster.now es promotions read.now.known.states.now read.now.known.scores.now
        → AreAccounted read.now.known.cluster.now es promotions (targets_of loaded.table) (decisions_made decided.now) text.old.items text.new.items (targets_of after.table)) }
{
    let mut loaded = loaded;
    for made in decided {
        loaded = push_made(alloc, text, read, loaded, made.decision)?;
    }
    Ok(loaded)
}

/// The text of how the decisions of the placement came about: of each decision what each node counted for it, by which statement, and why it was chosen
/// or not; then what was chosen and is held back, and by which rule; then the target lines (rule of this project). It asks for a valid cluster, and for
/// states, totals and a placement that one journal tells of it. `NoMemory` comes when memory runs out.
pub fn why_text(
    alloc: Global,
    cluster: &Cluster,
    states: &States,
    scores: &ScoreTable,
    placed: &Placed,
) -> Result<Vec<u8>, NoMemory>
    requires valid { IsValid cluster.now }
    requires journal { HavePlacement cluster.now states.now scores.now placed.now }
    ensures { IfOk result (λ text. (es : List EventOf) (promotions : List PromotionOf)
        → states.now ≡ states_of cluster.now es promotions → scores.now ≡ scores_of cluster.now es promotions
        → IsPlaced cluster.now es promotions placed.now → accounts.IsWhyText cluster.now es promotions placed.now text.items) }
{
    let read = Read::new(alloc, cluster, states, scores)?;
    let table = pinned_table(alloc, cluster, states, placed.pins.as_slice())?;
    let loaded = LoadedTable::of(alloc, cluster, table)?;
    let mut text = Vec::new(alloc);
    let decided = placed.decided.as_slice();
    let loaded = push_all_made(alloc, &mut text, &read, loaded, decided)?;
    push_held(&mut text, cluster, &loaded.table, &placed.table)?;
    push_targets(
        &mut text,
        cluster,
        placed.pins.as_slice(),
        &placed.table,
        placed.none.as_slice(),
    )?;
    Ok(text)
}
