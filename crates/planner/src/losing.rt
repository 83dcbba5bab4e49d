ghost use Rattle.std.specs.Prelude.{◌≡◌, ◌<◌, ◌^◌, ◌++◌, ◌∷◌, [], IfOk, length};
ghost use Rattle.cluster_types.specs.Journals as journals;
ghost use Rattle.cluster_types.specs.NodeStates.{is_online_state};
ghost use Rattle.cluster_types.specs.declared.journal.Event.TheVariants.{Lost};
ghost use Rattle.cluster_types.specs.UnpackedStates.{states_of};
ghost use Rattle.cluster_types.specs.Valid.{IsValid};
ghost use Rattle.state_unpack.specs.KeptKnowledge.{Knows};
ghost use Rattle.planner.specs.Losses.{IsLoss, AreAllLosses};

use cluster_types::{Cluster, Event, Journal, Loss, NoMemory, NodeId, NodeState, Report, States};
use faults::with;
use listed::Listed;
use placement::placement_of;
use state_unpack::{Known, valid_clusters_have_few_monitors};
use std::alloc::Global;

fn is_online(state: NodeState) -> bool
    ensures { result ≡ is_online_state state }
{
    matches!(state, NodeState::Online)
}

/// What a journal tells of a cluster.
fn known<'c>(alloc: Global, cluster: &'c Cluster, journal: &Journal) -> Result<Known<'c>, NoMemory>
    requires valid { IsValid cluster.now }
    requires moment { journals.moment_of journal.now.events < 2 ^ 64 }
    ensures { IfOk result (λ known. Knows cluster.now journal.now.events known) }
{
    valid_clusters_have_few_monitors();
    Known::new(alloc, cluster, journal.events.as_slice())
}

/// What the journal tells of the cluster once the node is lost, where this is known of it before.
fn states_without(
    alloc: Global,
    cluster: &Cluster,
    journal: &Journal,
    known: &Known,
    node: NodeId,
) -> Result<States, NoMemory>
    requires moment { journals.moment_of journal.now.events < 2 ^ 64 }
    requires known { Knows cluster.now journal.now.events known.now }
    ensures { IfOk result (λ states. states ≡ states_of cluster.now (journal.now.events ++ Lost node ∷ []) journal.now.promotions) }
{
    let mut lost = known.copied(alloc)?;
    lost.tell(Event::Lost { node });
    lost.states(alloc, journal.promotions.as_slice())
}

/// Where everything goes once the node is lost.
fn loss_of(
    alloc: Global,
    cluster: &Cluster,
    journal: &Journal,
    known: &Known,
    node: NodeId,
) -> Result<Loss, NoMemory>
    requires valid { IsValid cluster.now }
    requires moment { journals.moment_of journal.now.events < 2 ^ 64 }
    requires known { Knows cluster.now journal.now.events known.now }
    ensures node { IfOk result (λ loss. loss.node ≡ node) }
    ensures loss { IfOk result (λ loss. IsLoss cluster.now journal.now.events journal.now.promotions loss) }
{
    let states = states_without(alloc, cluster, journal, known, node)?;
    let placed = placement_of(alloc, cluster, &states);
    let (_states, placed) = with(states, placed)?;
    Ok(Loss {
        node,
        pins: placed.pins,
        table: placed.table,
        none: placed.none,
    })
}

/// What the loss of each node does that is online: where everything goes in the plan for the journal with the loss of the node behind it. Quorum stays as it
/// was given (rule of this project). It asks for a valid cluster, and for a moment that fits 64 bits. Out of memory is the only other answer.
pub fn survive(alloc: Global, cluster: &Cluster, journal: &Journal) -> Result<Report, NoMemory>
    requires valid { IsValid cluster.now }
    requires moment { journals.moment_of journal.now.events < 2 ^ 64 }
    ensures { IfOk result (λ report. AreAllLosses cluster.now journal.now.events journal.now.promotions report) }
{
    let now = known(alloc, cluster, journal)?;
    let mut losses = Vec::new(alloc);
    for node in 0..cluster.nodes.len() as u32 {
        if !is_online(now.node_state(node)) {
            continue;
        }
        losses.push(loss_of(alloc, cluster, journal, &now, node)?)?;
    }
    Ok(Report {
        losses: Listed::from(losses),
    })
}
