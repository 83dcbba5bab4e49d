//! The first journal of a status.

ghost use Rattle.std.specs.Prelude.{◌≡◌, ◌<◌, ◌^◌, ◌++◌, ◌∷◌, [], length, map, IfOk, OnOk};
ghost use Rattle.std.specs.List.{cons_option, filter_map, range_with_len};
ghost use Rattle.cluster_types.specs.Journals as journals;
ghost use Rattle.cluster_types.specs.Valid.{KeepsLimits};
ghost use Rattle.cluster_types.specs.declared.journal.Event.TheVariants as event;
ghost use Rattle.input_reading.specs.FirstJournal.{events_of, first_said, history_of, journal_of, now_of, promotion_in, quorum_of, word_as, word_in};
ghost use Rattle.input_reading.specs.Inner.FirstJournal.{leavings};

use crate::status::line_meaning::{Fact, NodeWord};
use cluster_types::{Cluster, Event, Journal, NodeId, Promotion};
use faults::{NoMemory, done};
use listed::Listed;
use names::Names;
use std::alloc::Global;

/// The moment that is said, or 0.
fn now_of(told: &[Fact]) -> u64
    ensures { result ≡ now_of told.now }
{
    for line in told {
        if let Fact::Now(seconds) = *line {
            return seconds;
        }
    }
    0
}

/// The word on quorum, or no.
fn quorum_of(told: &[Fact]) -> bool
    ensures { result ≡ quorum_of told.now }
{
    for line in told {
        if let Fact::Quorum(yes) = *line {
            return yes;
        }
    }
    false
}

fn word_in(node: NodeId, line: Fact) -> Option<NodeWord>
    ensures { result ≡ word_in node line }
{
    match line {
        Fact::Node { node: said, word } if said == node => Some(word),
        _ => None,
    }
}

/// The word on the node, if there is one.
fn word_of(told: &[Fact], node: NodeId) -> Option<NodeWord>
    ensures { result ≡ first_said (word_in node) told.now }
{
    for line in told {
        if let Some(word) = word_in(node, *line) {
            return Some(word);
        }
    }
    None
}

/// How a node leaves by its word, if it does.
fn leaving(cluster: &Cluster, node: NodeId, word: Option<NodeWord>) -> Option<Event>
    ensures { cons_option result [] ≡ journals.leaving cluster.now (node, word_as word) }
{
    match word {
        Some(NodeWord::Online) => None,
        Some(NodeWord::Offline) => Some(Event::Down { node }),
        Some(NodeWord::Unclean) => Some(Event::Lost { node }),
        None if cluster.properties.fencing && cluster.properties.startup_fencing => {
            Some(Event::Lost { node })
        }
        None => Some(Event::Down { node }),
    }
}

fn add(events: &mut Listed<Event>, event: Event) -> Result<(), NoMemory>
    ensures { OnOk result (events.new ≡ events.old ++ event ∷ []) }
{
    events.push(event)?;
    Ok(())
}

/// Adds that each node joins.
fn add_joins(events: &mut Listed<Event>, nodes: u32) -> Result<(), NoMemory>
    ensures { OnOk result (events.new ≡ events.old ++ map event.Up (range_with_len 0 nodes)) }
{
    for node in 0..nodes {
        add(events, Event::Up { node })?;
    }
    Ok(())
}

/// Adds the operations that ended and the cells that were cleaned up.
fn add_history(events: &mut Listed<Event>, told: &[Fact]) -> Result<(), NoMemory>
    ensures { OnOk result (events.new ≡ events.old ++ history_of told.now) }
{
    for line in told {
        let Fact::Past(event) = *line else {
            continue;
        };
        add(events, event)?;
    }
    Ok(())
}

fn add_leaving(
    events: &mut Listed<Event>,
    cluster: &Cluster,
    node: NodeId,
    word: Option<NodeWord>,
) -> Result<(), NoMemory>
    ensures { OnOk result (events.new ≡ events.old ++ journals.leaving cluster.now (node, word_as word)) }
{
    match leaving(cluster, node, word) {
        Some(event) => add(events, event),
        None => Ok(()),
    }
}

/// Adds how the nodes leave that aren't online.
#[tactic(auto, using(crate::proofs::Leaving::all_leave, crate::proofs::Leaving::one_leaves, crate::proofs::Leaving::none_left))]
fn add_leavings(
    events: &mut Listed<Event>,
    cluster: &Cluster,
    told: &[Fact],
) -> Result<(), NoMemory>
    requires { KeepsLimits cluster.now }
    ensures { OnOk result (events.new ≡ events.old ++ leavings cluster.now told.now) }
{
    let nodes = cluster.nodes.len() as u32;
    for node in 0..nodes {
        add_leaving(events, cluster, node, word_of(told, node))?;
    }
    Ok(())
}

/// Adds the word on quorum and the moment.
fn add_last(events: &mut Listed<Event>, yes: bool, seconds: u64) -> Result<(), NoMemory>
    ensures { OnOk result (events.new ≡ events.old ++ event.Quorum yes ∷ event.Wait seconds ∷ []) }
{
    add(events, Event::Quorum { yes })?;
    add(events, Event::Wait { seconds })
}

/// Adds all events of the first journal.
fn add_events(events: &mut Listed<Event>, cluster: &Cluster, told: &[Fact]) -> Result<(), NoMemory>
    requires limits { KeepsLimits cluster.now }
    requires none { events.old ≡ [] }
    ensures { OnOk result (events.new ≡ events_of cluster.now told.now) }
{
    add_joins(events, cluster.nodes.len() as u32)?;
    add_history(events, told)?;
    add_leavings(events, cluster, told)?;
    add_last(events, quorum_of(told), now_of(told))
}

fn events_of(alloc: Global, cluster: &Cluster, told: &[Fact]) -> Result<Listed<Event>, NoMemory>
    requires { KeepsLimits cluster.now }
    ensures { IfOk result (λ events. events ≡ events_of cluster.now told.now) }
{
    let mut events = Listed::new(alloc);
    let added = add_events(&mut events, cluster, told);
    done(events, added)
}

fn promotions_of(alloc: Global, told: &[Fact]) -> Result<Listed<Promotion>, NoMemory>
    ensures { IfOk result (λ promotions. promotions ≡ filter_map promotion_in told.now) }
{
    let mut promotions = Listed::new(alloc);
    for line in told {
        let Fact::Promoting(promotion) = *line else {
            continue;
        };
        promotions.push(promotion)?;
    }
    Ok(promotions)
}

/// The first journal of all that was told.
pub fn journal_of(alloc: Global, names: &Names<'_>, told: &[Fact]) -> Result<Journal, NoMemory>
    ensures { IfOk result (λ journal. journal ≡ journal_of names.now told.now) }
{
    Ok(Journal {
        events: events_of(alloc, names.cluster(), told)?,
        promotions: promotions_of(alloc, told)?,
    })
}
