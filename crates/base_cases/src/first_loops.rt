//! What `edges` finds: the first edge that closes a loop.

use edges::{Edge, end_within, first_loop, is_loop_free, longest_ways};
use std::alloc::Global;
use std::process::Abort;

fn edges(rt: &impl Abort, alloc: Global, pairs: &[(u32, u32)]) -> Vec<Edge> {
    let mut edges = Vec::new(alloc);
    for (before, after) in pairs {
        edges
            .push(Edge {
                before: *before,
                after: *after,
            })
            .expect(rt, "memory");
    }
    edges
}

/// The place of the first loop, where `is_loop_free` agrees that there is one.
fn first(rt: &impl Abort, alloc: Global, positions: u32, edges: &[Edge]) -> Option<usize> {
    assert!(rt; end_within(positions, edges));
    let place = first_loop(alloc, positions, edges).expect(rt, "memory");
    let free = is_loop_free(alloc, positions, edges).expect(rt, "memory");
    assert!(rt; free == place.is_none());
    place
}

/// A number of positions, edges by their ends, and the place of the first edge that closes a loop.
const ROWS: &[(u32, &[(u32, u32)], Option<usize>)] = &[
    // Without a loop.
    (0, &[], None),
    (5, &[], None),
    (2, &[(0, 1)], None),
    (2, &[(1, 0), (1, 0), (1, 0)], None),
    (4, &[(3, 1), (1, 0), (3, 0), (3, 2), (2, 1)], None),
    // Of one position, of two and of three.
    (1, &[(0, 0)], Some(0)),
    (3, &[(0, 1), (1, 2), (2, 2)], Some(2)),
    (2, &[(0, 1), (1, 0)], Some(1)),
    (3, &[(2, 0), (0, 1), (1, 2)], Some(2)),
    // With several loops.
    (4, &[(0, 1), (2, 3), (3, 2), (1, 0), (0, 0)], Some(2)),
    (
        3,
        &[(0, 1), (0, 1), (1, 2), (0, 1), (2, 0), (2, 0)],
        Some(4),
    ),
    (
        8,
        &[(5, 6), (6, 7), (7, 5), (0, 1), (1, 2), (2, 3), (3, 4)],
        Some(2),
    ),
];

#[test]
fn the_first_edge_that_closes_a_loop(rt: HostRuntime) {
    let alloc = rt.alloc();
    for (positions, pairs, want) in ROWS {
        let edges = edges(&rt, alloc, pairs);
        let found = first(&rt, alloc, *positions, edges.as_slice());
        assert!(rt; found == *want);
    }
}

#[test]
fn ends_are_positions(rt: HostRuntime) {
    let edges = edges(&rt, rt.alloc(), &[(0, 1), (1, 0)]);
    assert!(rt; end_within(2, edges.as_slice()));
    assert!(rt; !end_within(1, edges.as_slice()));
    assert!(rt; end_within(0, &[]));
}

/// The longest ways of edges that have no loop.
fn ways(rt: &impl Abort, alloc: Global, positions: u32, edges: &[Edge]) -> Vec<u32> {
    assert!(rt; positions <= 1_000_000_000);
    assert!(rt; end_within(positions, edges));
    let free = is_loop_free(alloc, positions, edges).expect(rt, "memory");
    assert!(rt; free);
    longest_ways(alloc, positions, edges).expect(rt, "memory")
}

#[test]
fn longest_ways_to_each_position(rt: HostRuntime) {
    let alloc = rt.alloc();
    let edges = edges(&rt, alloc, &[(0, 1), (1, 2), (0, 2), (3, 2)]);
    let found = ways(&rt, alloc, 4, edges.as_slice());
    assert!(rt; found.as_slice() == [0, 1, 2, 0].as_slice());
}
