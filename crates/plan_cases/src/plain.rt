//! Small clusters and journals that texts say.

ghost use Rattle.std.specs.Prelude.{◌≡◌, true};
ghost use Rattle.cluster_types.specs.UnpackedStates.{states_of};
ghost use Rattle.cluster_types.specs.Valid.{IsValid, KeepsLimits};
ghost use Rattle.state_unpack.specs.Knowledge.{has_few_monitors};

use cluster_types::{Cluster, Journal, States, moment_of};
use input_reading::read_input;
use state_unpack::{unpack, valid_clusters_have_few_monitors};
use std::alloc::Global;
use std::process::Abort;

/// These parts of a text, one behind the other.
fn text_of(rt: &impl Abort, alloc: Global, parts: &[&str]) -> Vec<u8> {
    let mut text = Vec::new(alloc);
    for part in parts {
        text.extend_from_slice(part.as_bytes()).expect(rt, "memory");
    }
    text
}

/// What an input gives: the cluster, and the first journal.
#[derive(Drop)]
struct Given {
    cluster: Cluster,
    journal: Journal,
}

/// What an input of these parts gives.
fn input_of(rt: &impl Abort, alloc: Global, parts: &[&str]) -> Given
    ensures valid { IsValid result.cluster }
    ensures limits { KeepsLimits result.cluster }
    ensures monitors { has_few_monitors result.cluster ≡ true }
{
    valid_clusters_have_few_monitors();
    let text = text_of(rt, alloc, parts);
    assert!(rt; text.len() <= 16_777_216);
    let head = read_input(alloc, text).expect(rt, "the input is read").head;
    Given {
        cluster: head.cluster,
        journal: head.journal,
    }
}

/// The cluster of a configuration.
pub fn cluster_of(rt: &impl Abort, alloc: Global, text: &str) -> Cluster
    ensures valid { IsValid result }
    ensures limits { KeepsLimits result }
    ensures monitors { has_few_monitors result ≡ true }
{
    input_of(rt, alloc, &[text]).cluster
}

/// A cluster, a journal, and what this tells of it.
#[derive(Drop)]
pub struct Known {
    pub cluster: Cluster,
    pub journal: Journal,
    pub states: States,
}

/// What a journal tells of a cluster, and both.
pub fn known_of(rt: &impl Abort, alloc: Global, cluster: Cluster, journal: Journal) -> Known
    requires valid { IsValid cluster }
    ensures valid { IsValid result.cluster }
    ensures told { result.states ≡ states_of result.cluster result.journal.events result.journal.promotions }
{
    valid_clusters_have_few_monitors();
    assert!(rt; moment_of(journal.events.as_slice()) < 18_446_744_073_709_551_616);
    let states = unpack(alloc, &cluster, &journal).expect(rt, "memory");
    Known {
        cluster,
        journal,
        states,
    }
}

/// What an input of these parts says.
pub fn known_by(rt: &impl Abort, alloc: Global, parts: &[&str]) -> Known
    ensures valid { IsValid result.cluster }
    ensures told { result.states ≡ states_of result.cluster result.journal.events result.journal.promotions }
{
    let given = input_of(rt, alloc, parts);
    known_of(rt, alloc, given.cluster, given.journal)
}
