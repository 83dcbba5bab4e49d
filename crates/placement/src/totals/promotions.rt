//! How much leaves want to be promoted.

ghost use Rattle.std.specs.Prelude.{◌≡◌, ◌<◌, ◌≤◌, ◌++◌, ◌∷◌, [], ℕ, List, length, IfOk};
ghost use Rattle.cluster_types.specs.declared.journal.Promotion.{Promotion as PromotionOf};
ghost use Rattle.cluster_types.specs.Valid.{IsValid, KeepsLimits};
ghost use Rattle.cluster_types.specs.Terms.{promotion_score};
ghost use Rattle.placement.specs.Promotions as spec;
ghost use Rattle.placement.specs.Inner.Promotions as inner;
ghost use Rattle.placement.specs.Rows.{IsRow};

use crate::totals::locations::given_row;
use crate::totals::putting::put_if;
use cluster_types::{Cluster, LeafId, NodeId, Promotion, Role, States, cell_place};
use listed::value_at;
use score::{NoMemory, Row, Score};
use std::alloc::{AllocError, Global};

/// Whether nothing is kept at a place that is there.
fn is_free(said: &[Option<Score>], place: usize) -> bool
    ensures { result ≡ inner.is_vacant said.now place }
{
    match said.get(place) {
        Some(kept) => kept.is_none(),
        None => false,
    }
}

/// Keeps the score of its cell, if none is kept yet and the cell is there.
fn say(cluster: &Cluster, said: &mut Vec<Option<Score>>, promotion: &Promotion)
    requires { KeepsLimits cluster.now }
    ensures { (before : List PromotionOf) → spec.AreSaid cluster.now before said.old.items
        → spec.AreSaid cluster.now (before ++ promotion.now ∷ []) said.new.items }
{
    let nodes = cluster.nodes.len();
    if promotion.node as usize >= nodes {
        return;
    }
    let place = cell_place(nodes, promotion.leaf, promotion.node);
    if is_free(said, place) {
        said[place] = Some(promotion.score);
    }
}

/// For each cell the first of these scores that is said of it.
pub fn first_said(
    alloc: Global,
    cluster: &Cluster,
    promotions: &[Promotion],
) -> Result<Vec<Option<Score>>, AllocError>
    requires { KeepsLimits cluster.now }
    ensures { IfOk result (λ said. spec.AreSaid cluster.now promotions.now said.items) }
{
    let cells = cluster.leaves.len() * cluster.nodes.len();
    let mut said = vec![in alloc; None; cells]?;
    for promotion in promotions {
        say(cluster, &mut said, promotion);
    }
    Ok(said)
}

/// How much a leaf wants to be promoted on a node: what is said of it, else -1 (rule of this project).
pub fn wish(cluster: &Cluster, said: &[Option<Score>], leaf: LeafId, node: NodeId) -> Score
    requires limits { KeepsLimits cluster.now }
    requires leaf { leaf < length cluster.now.leaves }
    requires node { node < length cluster.now.nodes }
    ensures { (promotions : List PromotionOf) → spec.AreSaid cluster.now promotions said.now → result ≡ promotion_score promotions leaf node }
{
    let place = cell_place(cluster.nodes.len(), leaf, node);
    value_at(said, place).unwrap_or(Score { points: -1 })
}

/// The row of what counts for promoting a leaf that is there: what locations give it in the role Promoted, and how much it wants to be
/// promoted.
pub(crate) fn promote_row(
    alloc: Global,
    cluster: &Cluster,
    said: &[Option<Score>],
    leaf: LeafId,
    moment: u64,
) -> Result<Row, NoMemory>
    requires valid { IsValid cluster.now }
    requires leaf { leaf < length cluster.now.leaves }
    ensures { IfOk result (λ row. (promotions : List PromotionOf) → spec.AreSaid cluster.now promotions said.now
        → IsRow (length cluster.now.nodes) (inner.wished_by cluster.now moment promotions leaf) row) }
{
    let mut row = given_row(alloc, cluster, leaf, Role::Promoted, moment)?;
    for node in 0..cluster.nodes.len() {
        let term = wish(cluster, said, leaf, node as u32);
        put_if(&mut row, node as u32, term, true);
    }
    Ok(row)
}
