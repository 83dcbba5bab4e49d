//! What comes next of simulated clusters of some numbers. The numbers that are drawn were worked out by hand.

ghost use Rattle.cluster_types.specs.Valid.{KeepsLimits};

use crate::starts::cluster_of;
use cluster_types::{Action, Answer, Cluster};
use simulated::{Fate, Real, Reality, Standing, Turn};
use std::alloc::Global;
use std::process::Abort;

const TWO_NODES: &str = "node n1\nnode n2\n";

/// The simulated cluster of this number, of two nodes that are up.
fn two_up<'c>(rt: &impl Abort, alloc: Global, cluster: &'c Cluster, number: u32) -> Reality<'c>
    requires { KeepsLimits cluster.now }
{
    assert!(rt; cluster.nodes.len() == 2 && cluster.leaves.len() == 0);
    let nodes = vec![in alloc; Standing::Up, Standing::Up].expect(rt, "memory");
    Reality::new(cluster, nodes, Vec::new(alloc), number)
}

const ENDS: [Turn; 3] = [
    Turn::Ends {
        place: 0,
        fate: Fate::TimedOut,
    },
    Turn::Ends {
        place: 0,
        fate: Fate::True,
    },
    Turn::Ends {
        place: 5,
        fate: Fate::True,
    },
];

/// With 7 the first numbers that are drawn are 19564, 9806, 10868, 22674, 32531 and 3365: two for each action that ends.
#[test]
fn actions_end_as_is_drawn(rt: HostRuntime) {
    let cluster = cluster_of(&rt, rt.alloc(), TWO_NODES);
    let mut reality = two_up(&rt, rt.alloc(), &cluster, 7);
    let turns = [reality.turn(2), reality.turn(1), reality.turn(7)];
    assert!(rt; turns == ENDS);
}

const FENCE: Action = Action::Fence { node: 0 };

/// The first node leaves, and the action ends that fences it.
fn leaves_and_is_fenced(reality: &mut Reality<'_>) -> bool {
    reality.begin(FENCE);
    let Turn::Leaves { node } = reality.turn(2) else {
        return false;
    };
    let lost = reality.leave(node);
    let Turn::Ends { place, fate } = reality.turn(1) else {
        return false;
    };
    let end = reality.end(5, FENCE, fate);
    lost == Answer::Lost { node: 0 }
        && place == 0
        && fate == Fate::True
        && end == Answer::End { number: 5, code: 0 }
        && reality.real(0, 0) == Real::Off
}

/// With 0 they are 0, 21468, 9988 and 22117: the first node leaves, and then an action ends.
#[test]
fn a_node_leaves_and_is_fenced(rt: HostRuntime) {
    let cluster = cluster_of(&rt, rt.alloc(), TWO_NODES);
    let mut reality = two_up(&rt, rt.alloc(), &cluster, 0);
    assert!(rt; leaves_and_is_fenced(&mut reality));
}
