//! How high steps stand above those that must come before them, and in which order actions are numbered.

use crate::plain::cluster_of;
use crate::todos::{Todo, action};
use cluster_types::{LeafId, Op, Role};
use loops::{StepRanks, ranks};
use std::alloc::Global;
use std::process::Abort;

/// `a` before `b`, and `b` before the promotion of `c`. So what takes the promotion of `c` away, or `c` itself, comes before the stop of `b`, and this
/// before that of `a`.
const TEXT: &str =
    "node n1\nnode n2\nprimitive a ocf:pacemaker:Dummy\nprimitive b ocf:pacemaker:Dummy\n\
    primitive c ocf:pacemaker:Stateful\nclone cs c meta promotable=true\n\
    order o1 Mandatory: a b\norder o2 Mandatory: b:start cs:promote\n";

const A: LeafId = 0;

const B: LeafId = 1;

const C: LeafId = 2;

/// A leaf that isn't there.
const NONE: LeafId = 3;

/// The ranks of the demote, the stop, the start and the promote of each leaf.
const RANKS: &[(LeafId, [u32; 4])] = &[
    (A, [0, 3, 0, 0]),
    (B, [0, 2, 1, 0]),
    (C, [0, 1, 0, 2]),
    (NONE, [0, 0, 0, 0]),
];

fn ranks_of(rt: &impl Abort, alloc: Global) -> StepRanks {
    let cluster = cluster_of(rt, alloc, TEXT);
    ranks(alloc, &cluster).expect(rt, "memory")
}

/// Whether the leaf has these ranks, and its monitors have none.
fn has_ranks(ranks: &StepRanks, leaf: LeafId, expected: [u32; 4]) -> bool {
    let found = [
        ranks.rank(Op::Demote, leaf),
        ranks.rank(Op::Stop, leaf),
        ranks.rank(Op::Start, leaf),
        ranks.rank(Op::Promote, leaf),
    ];
    found == expected && ranks.rank(Op::Monitor, leaf) == 0
}

#[test]
fn a_rank_is_the_longest_chain(rt: HostRuntime) {
    let ranks = ranks_of(&rt, rt.alloc());
    for row in RANKS {
        let (leaf, expected) = *row;
        assert!(rt; has_ranks(&ranks, leaf, expected));
    }
}

/// In the order of their numbers, where `a` migrates.
const TODOS: [Todo; 15] = [
    Todo::Fence(1),
    Todo::Probe(B, 0),
    Todo::Step(Op::Demote, C, 1),
    Todo::Step(Op::Stop, C, 0),
    Todo::Step(Op::Stop, B, 0),
    Todo::Send(A, 0, 1),
    Todo::TakeIn(A, 0, 1),
    Todo::Step(Op::Stop, A, 0),
    Todo::Step(Op::Start, A, 1),
    Todo::Step(Op::Start, C, 0),
    Todo::Step(Op::Start, B, 0),
    Todo::Step(Op::Promote, C, 1),
    Todo::Watch(A, 1, 10_000, Role::Started),
    Todo::Watch(B, 0, 5_000, Role::Started),
    Todo::Watch(B, 0, 10_000, Role::Started),
];

#[test]
fn actions_are_numbered_by_phase_and_rank(rt: HostRuntime) {
    let ranks = ranks_of(&rt, rt.alloc());
    for i in 0..15 {
        for j in 0..15 {
            let is_before = ranks.before(&[true], &action(TODOS[i]), &action(TODOS[j]));
            assert!(rt; is_before == (i < j));
        }
    }
}
