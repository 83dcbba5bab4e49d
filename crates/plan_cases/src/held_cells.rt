//! Cells that are held back: the targets in the end, and the reasons of leaves without one.

ghost use Rattle.std.specs.Prelude.{◌≡◌, ◌*◌, length};
ghost use Rattle.cluster_types.specs.Valid.{IsValid, KeepsLimits};

use crate::case_rows::{Case, check_all};
use crate::plain::{Known, known_by};
use cluster_types::{Cluster, NoReason, Pin, Table, Target};
use listed::Listed;
use placement::{reasons, targets};
use std::alloc::Global;
use std::process::Abort;

const N: Target = Target::Nowhere;

const S: Target = Target::Started;

const P: Target = Target::Promoted;

const FREE: Option<Pin> = None;

const UNMANAGED: Option<Pin> = Some(Pin::Unmanaged);

/// What must come first goes nowhere.
const NO_NODE: &str =
    "node n1\nnode n2\nprimitive a Dummy\nprimitive b Dummy\norder o a b\ncolocation c inf: a b\n\
    location l1 a -inf: n1\nlocation l2 a -inf: n2\n\
    %status\nquorum yes\nnode n1 online\nnode n2 online\n";

/// Each of a chain is held by the one before it. The orders stand the other way round.
const CHAIN: &str =
    "node n1\nprimitive a Dummy meta target-role=Stopped\nprimitive b Dummy\nprimitive c Dummy\n\
    primitive d Dummy\norder c-then-d c d\norder b-then-c b c\norder a-then-b a b\n\
    %status\nquorum yes\nnode n1 online\n";

/// The promote is held, and not the place.
const PROMOTE: &str =
    "node n1\nnode n2\nprimitive drbd ocf:linbit:drbd\nprimitive x Dummy meta target-role=Stopped\n\
    ms md drbd\norder o inf: x:start md:promote\n\
    %status\nquorum yes\nnode n1 online\nnode n2 online\npromotion n1 drbd 10\n";

/// The place is held, and so the promote.
const PLACE: &str =
    "node n1\nnode n2\nprimitive drbd ocf:linbit:drbd\nprimitive x Dummy meta target-role=Stopped\n\
    ms md drbd\norder o inf: x:start md:start\n\
    %status\nquorum yes\nnode n1 online\nnode n2 online\npromotion n1 drbd 10\n";

/// The order joins the copies on one node.
const INTERLEAVED: &str = "node n1\nnode n2\nprimitive a Dummy\nprimitive b Dummy\n\
    clone ca a meta interleave=true\nclone cb b meta interleave=true\nlocation l a -inf: n2\norder o ca cb\n\
    %status\nquorum yes\nnode n1 online\nnode n2 online\n";

/// One copy of the first serves all of the then.
const ANYWHERE: &str =
    "node n1\nnode n2\nprimitive a Dummy\nprimitive b Dummy\nclone ca a\nclone cb b\n\
    location l a -inf: n2\norder o ca cb\n\
    %status\nquorum yes\nnode n1 online\nnode n2 online\n";

const OPTIONAL: &str =
    "node n1\nprimitive a Dummy meta target-role=Stopped\nprimitive b Dummy\norder o Optional: a b\n\
    %status\nquorum yes\nnode n1 online\n";

/// The first mandatory colocation is named, though orders stand before it.
const BOTH: &str =
    "node n1\nprimitive x Dummy meta target-role=Stopped\nprimitive y Dummy\nprimitive z Dummy\n\
    order x-then-y x y\norder x-then-z x z\ncolocation z-with-x 100: z x\ncolocation z-with-y inf: z y\n\
    colocation z-with-y-too inf: z y\n\
    %status\nquorum yes\nnode n1 online\n";

/// What isn't managed isn't held back.
const PINNED: &str =
    "node n1\nprimitive a Dummy meta target-role=Stopped\nprimitive b Dummy meta is-managed=false\n\
    order o a b\n\
    %status\nquorum yes\nnode n1 online\nop n1 b start 0 0 900\n";

/// Reasons that are no rule's.
const PLAIN: &str = "node n1\nprimitive a Dummy\nprimitive b Dummy meta target-role=Stopped\n\
    primitive c Dummy op monitor interval=10s on-fail=stop\nprimitive d Dummy\nclone cd d meta clone-max=0\n\
    %status\nquorum yes\nnode n1 online\nop n1 c start 0 0 900\nop n1 c monitor 10000 1 990\n";

const STOP_ALL: &str =
    "node n1\nprimitive a Dummy\nprimitive b Dummy meta is-managed=false\nproperty stop-all-resources=true\n\
    %status\nquorum no\nnode n1 online\n";

const NO_QUORUM: &str = "node n1\nprimitive a Dummy\n%status\nquorum no\nnode n1 online\n";

/// An input, and what becomes of its cells, leaf by leaf and node by node.
struct Row {
    text: &'static str,
    /// Of each leaf.
    pins: &'static [Option<Pin>],
    chosen: &'static [Target],
    /// The targets in the end.
    left: &'static [Target],
    /// Of each leaf the word of its reason.
    words: &'static [&'static str],
}

const ROWS: &[Row] = &[
    Row {
        text: NO_NODE,
        pins: &[FREE; 2],
        chosen: &[N, N, S, N],
        left: &[N; 4],
        words: &["NoNode", "o"],
    },
    Row {
        text: CHAIN,
        pins: &[FREE; 4],
        chosen: &[N, S, S, S],
        left: &[N; 4],
        words: &["Stopped", "a-then-b", "b-then-c", "c-then-d"],
    },
    Row {
        text: PROMOTE,
        pins: &[FREE; 2],
        chosen: &[P, S, N, N],
        left: &[S, S, N, N],
        words: &["", "Stopped"],
    },
    Row {
        text: PLACE,
        pins: &[FREE; 2],
        chosen: &[P, S, N, N],
        left: &[N; 4],
        words: &["o", "Stopped"],
    },
    Row {
        text: INTERLEAVED,
        pins: &[FREE; 2],
        chosen: &[S, N, S, S],
        left: &[S, N, S, N],
        words: &["", ""],
    },
    Row {
        text: ANYWHERE,
        pins: &[FREE; 2],
        chosen: &[S, N, S, S],
        left: &[S, N, S, S],
        words: &["", ""],
    },
    Row {
        text: OPTIONAL,
        pins: &[FREE; 2],
        chosen: &[N, S],
        left: &[N, S],
        words: &["Stopped", ""],
    },
    Row {
        text: BOTH,
        pins: &[FREE; 3],
        chosen: &[N, S, S],
        left: &[N; 3],
        words: &["Stopped", "x-then-y", "z-with-y"],
    },
    Row {
        text: PINNED,
        pins: &[FREE, UNMANAGED],
        chosen: &[N, S],
        left: &[N, S],
        words: &["Stopped", ""],
    },
    Row {
        text: PLAIN,
        pins: &[FREE; 4],
        chosen: &[S, N, N, N],
        left: &[S, N, N, N],
        words: &["", "Stopped", "OnFail", "NoCopies"],
    },
    Row {
        text: STOP_ALL,
        pins: &[FREE, UNMANAGED],
        chosen: &[N, N],
        left: &[N, N],
        words: &["StopAll", ""],
    },
    Row {
        text: NO_QUORUM,
        pins: &[FREE],
        chosen: &[N],
        left: &[N],
        words: &["NoQuorum"],
    },
];

/// The table of a cluster with these targets.
fn table_of(rt: &impl Abort, alloc: Global, cluster: &Cluster, cells: &[Target]) -> Table
    requires { KeepsLimits cluster.now }
    ensures nodes { result.nodes ≡ length cluster.now.nodes }
    ensures cells { length result.targets ≡ length cluster.now.leaves * length cluster.now.nodes }
{
    assert!(rt; cells.len() == cluster.leaves.len() * cluster.nodes.len());
    let targets = Vec::from_slice(alloc, cells).expect(rt, "memory");
    Table {
        nodes: cluster.nodes.len() as u32,
        targets: Listed::from(targets),
    }
}

/// The word of a reason: the id of the rule, where it is a rule's, and nothing where there is none.
fn word_of(reason: &Option<NoReason>) -> &[u8] {
    match reason {
        None => b"",
        Some(NoReason::NoCopies) => b"NoCopies",
        Some(NoReason::Stopped) => b"Stopped",
        Some(NoReason::OnFail) => b"OnFail",
        Some(NoReason::StopAll) => b"StopAll",
        Some(NoReason::NoQuorum) => b"NoQuorum",
        Some(NoReason::NoNode) => b"NoNode",
        Some(NoReason::Held(id)) => id.bytes(),
    }
}

fn say(found: &[Option<NoReason>], words: &[&str]) -> bool {
    found
        .iter()
        .map(word_of)
        .eq(words.iter().map(|word| word.as_bytes()))
}

impl Case for Row {
    fn known(&self, rt: &impl Abort, alloc: Global) -> Known {
        known_by(rt, alloc, &[self.text])
    }

    fn holds(&self, rt: &impl Abort, alloc: Global, known: &Known) -> bool {
        let (cluster, pins) = (&known.cluster, self.pins);
        let chosen = table_of(rt, alloc, cluster, self.chosen);
        let table = targets(alloc, cluster, pins, &chosen).expect(rt, "memory");
        let none = reasons(alloc, cluster, &known.states, pins, &chosen, &table).expect(
            rt, "memory",
        );
        table.targets.as_slice() == self.left && say(none.as_slice(), self.words)
    }
}

#[test]
fn targets_and_reasons_of_inputs(rt: HostRuntime) {
    check_all(&rt, rt.alloc(), ROWS);
}
