//! What is counted of a run.

ghost use Rattle.std.specs.Prelude.{◌≡◌, List, filter, length};
ghost use Rattle.std.specs.List.{AllByRecursion};
ghost use Rattle.cluster_types.specs.declared.cluster.Cluster.{Cluster as ClusterOf};
ghost use Rattle.cluster_types.specs.declared.journal.Event.{Event as EventOf};
ghost use Rattle.cluster_types.specs.Tables as tables;
ghost use Rattle.cluster_types.specs.Texts.{PassedFits};
ghost use Rattle.sim_core.specs.Summary as summary;

use cluster_types::{Cluster, Event, Passed, Target};
use graph_exec::is_success;

fn is_begin(event: Event) -> bool
    ensures { result ≡ summary.is_begin event }
{
    match event {
        Event::Begin { .. } => true,
        _ => false,
    }
}

fn is_good_end(cluster: &Cluster, event: Event) -> bool
    ensures { result ≡ summary.is_good_end cluster.now event }
{
    match event {
        Event::Ended {
            action,
            outcome,
            ..
        } => is_success(cluster, action, outcome),
        _ => false,
    }
}

fn is_somewhere(target: Target) -> bool
    ensures { result ≡ tables.is_somewhere target }
{
    match target {
        Target::Nowhere => false,
        Target::Started | Target::Promoted => true,
    }
}

/// How many actions began.
pub(crate) fn count_begun(events: &[Event]) -> usize
    ensures { result ≡ length (filter summary.is_begin events.now) }
{
    events.iter().filter(|event| is_begin(**event)).count()
}

/// How many ended with a success.
pub(crate) fn count_succeeded(cluster: &Cluster, events: &[Event]) -> usize
    ensures { result ≡ length (filter (summary.is_good_end cluster.now) events.now) }
{
    events
        .iter()
        .filter(|event| is_good_end(cluster, **event))
        .count()
}

fn count_placed(targets: &[Target]) -> usize
    ensures { result ≡ length (filter tables.is_somewhere targets.now) }
{
    targets
        .iter()
        .filter(|target| is_somewhere(**target))
        .count()
}

/// How many cells have a target in the last of some transitions.
pub(crate) fn last_targets(all: &[Passed]) -> usize
    ensures { (c : ClusterOf) (es : List EventOf) → AllByRecursion (PassedFits c es) all.now → result ≡ summary.last_targets c all.now }
{
    match all.last() {
        Some(passed) => count_placed(passed.table.targets.as_slice()),
        None => 0,
    }
}
