ghost use Rattle.std.specs.Prelude.{◌≡◌, ◌<◌, ℕ, List, Some, length};
ghost use Rattle.cluster_types.specs.declared.journal.Event.{Event as EventOf};
ghost use Rattle.cluster_types.specs.declared.journal.Promotion.{Promotion as PromotionOf};
ghost use Rattle.cluster_types.specs.Decisions.{leaf_of};
ghost use Rattle.cluster_types.specs.Tables.{targets_of};
ghost use Rattle.placement.specs.Loads.{IsLoaded};
ghost use Rattle.placement.specs.Reads.{may_stay_in};
ghost use Rattle.placement.specs.Steps.{Chooses, Tell};
ghost use Rattle.account_text.specs.Inner.VerdictsByStates.{last_of};
ghost use Rattle.account_text.specs.Inner.Sides.{AreColocationsOf};

use cluster_types::{Colocation, Decision, NodeId};
use placement::{ChosenNodes, Known, LoadedTable};

/// What is asked of a decision on each node.
#[derive(Drop)]
pub(crate) struct Asked<'a> {
    pub(crate) known: &'a Known<'a>,
    pub(crate) loaded: &'a LoadedTable,
    pub(crate) decision: Decision,
    /// Whether what runs of the leaf may stay, as far as the cluster and its copies are asked.
    pub(crate) stays: bool,
    /// The colocations of which the decision is a side.
    pub(crate) sides: &'a [&'a Colocation],
    pub(crate) chosen: &'a ChosenNodes,
    /// The last of the nodes that are chosen.
    pub(crate) last: Option<NodeId>,
    pub(crate) ghost totals: { length chosen.now.totals.items ≡ length known.now.cluster.now.nodes },
    pub(crate) ghost loads: { length loaded.now.loads.items ≡ length chosen.now.totals.items },
    pub(crate) ghost within: { (m : ℕ) → last ≡ Some m → m < length chosen.now.totals.items },
    pub(crate) ghost leaf: { leaf_of decision < length known.now.cluster.now.leaves },
    pub(crate) ghost may_stay: { stays ≡ may_stay_in known.now.cluster.now known.now.states.now known.now.rights (leaf_of decision) },
    pub(crate) ghost of_it: { AreColocationsOf decision known.now.cluster.now.colocations sides.now },
    pub(crate) ghost loaded_so: { IsLoaded known.now.cluster.now loaded.now.table loaded.now.loads.items },
    pub(crate) ghost is_last: { last ≡ last_of chosen.now.totals.items loaded.now.loads.items chosen.now.nodes },
    pub(crate) ghost chosen_so: { (es : List EventOf) (promotions : List PromotionOf)
        → Tell known.now.cluster.now es promotions known.now.states.now known.now.scores.now
        → Chooses known.now.cluster.now es promotions (targets_of loaded.now.table) decision chosen.now.totals.items chosen.now.nodes },
}
