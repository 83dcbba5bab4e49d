//! What the words write with memory that suffices, or is refused. The rows are cases of `cases/` too.
//!
//! With each allocation refused in turn, by `rt try --test --fail-alloc N`, these tests pass too, but for those that the test itself makes.

use crate::outcome::{easy, outcome_of};
use crate::replay_live::{LOSS, LOSS_RUN};
use std::alloc::Global;
use std::process::Abort;

/// An input, and the text that is written.
type Row = (&'static str, &'static str);

/// The input gets its text, or memory runs out.
fn assert_whole_or_refused(rt: &impl Abort, alloc: Global, word: &str, row: Row) {
    let (input, whole) = row;
    let made = outcome_of(rt, alloc, &easy(&[word], input.as_bytes()));
    assert!(rt; made.is_whole_or_refused(whole.as_bytes()));
}

/// The last line of the first bytes of a run.
fn last_line(run: &str, length: usize) -> &str {
    match run.get(..length) {
        Some(part) => part.lines().last().unwrap_or("complete 0"),
        None => "",
    }
}

/// A transition ends with this line, or nothing is to be done where this answer comes.
fn is_between(line: &str, idle: &str) -> bool {
    line.starts_with("complete ") || line.starts_with("aborted ") || line == idle
}

/// The run of an input is written whole, or memory runs out between two of its transitions. This answer comes while nothing is to be done.
fn assert_whole_or_between(rt: &impl Abort, alloc: Global, row: Row, idle: &str) {
    let (input, run) = row;
    let made = outcome_of(rt, alloc, &easy(&["replay"], input.as_bytes()));
    assert!(rt; made.is_whole_or_refused(run.as_bytes()));
    assert!(rt; is_between(last_line(run, made.text.len()), idle));
}

/// An input with each section.
const EACH_SECTION: Row = (
    "node n1\nprimitive a Dummy\n%status\nnow 5\n%results\nwait 1\n",
    "node n1\nprimitive a ocf:heartbeat:Dummy\n# nodes 1 leaves 1 rules 0\n",
);

#[test]
fn memory_suffices_or_is_refused_to_check(rt: HostRuntime) {
    assert_whole_or_refused(&rt, rt.alloc(), "check", EACH_SECTION);
}

/// What is ordered after a leaf without a place is held back.
const HELD_BACK: Row = (
    r#"node n1
node n2
primitive a Dummy
primitive b Dummy
order o a b
colocation c inf: a b
location l1 a -inf: n1
location l2 a -inf: n2
%status
quorum yes
node n1 online
node n2 online
"#,
    r#"place b
score b n1 0
score b n2 0
place a
score a n1 -INFINITY
score a n2 -INFINITY
none a NoNode
none b Held o
"#,
);

#[test]
fn memory_suffices_or_is_refused_to_score(rt: HostRuntime) {
    assert_whole_or_refused(&rt, rt.alloc(), "scores", HELD_BACK);
}

/// What is held back in the end: by a colocation before an order, of a place before its promote.
const HELD: Row = (
    r#"node n1
node n2
primitive a Dummy
primitive b Dummy
primitive c Dummy
primitive d Dummy
primitive e Dummy
primitive f Dummy
primitive p Dummy
primitive q Dummy
ms me e
ms mf f
clone cp p meta interleave=true
clone cq q meta interleave=true
order ad a d
order back c b
order ab a b
colocation cb inf: c b
colocation db inf: d b
order ae a me:promote
order af a mf
order pq cp cq
location a1 a -inf: n1
location a2 a -inf: n2
location p2 p -inf: n2
%status
quorum yes
node n1 online
node n2 online
promotion n1 e 10
promotion n2 f 10
"#,
    r#"place e
score e n1 0
chosen e n1
score e n2 0
chosen e n2
promote e
part e n1 10 promotion
score e n1 10
chosen e n1
part e n2 -1 promotion
score e n2 -1
not e n2 below
place f
score f n1 0
chosen f n1
score f n2 0
chosen f n2
promote f
part f n1 -1 promotion
score f n1 -1
not f n1 below
part f n2 10 promotion
score f n2 10
chosen f n2
place b
score b n1 0
chosen b n1
score b n2 0
not b n2 later n1
place c
score c n1 0
chosen c n1
score c n2 0
not c n2 without cb
place d
score d n1 0
chosen d n1
score d n2 0
not d n2 without db
place p
score p n1 0
chosen p n1
part p n2 -INFINITY location p2
score p n2 -INFINITY
not p n2 below
place q
score q n1 0
chosen q n1
score q n2 0
chosen q n2
place a
part a n1 -INFINITY location a1
score a n1 -INFINITY
not a n1 below
part a n2 -INFINITY location a2
score a n2 -INFINITY
not a n2 below
held b n1 back
held c n1 cb
held d n1 db
unpromoted e n1 ae
held f n1 af
held f n2 af
held q n2 pq
none a NoNode
none b Held back
none c Held cb
none d Held db
target e n1 started
target e n2 started
none f Held af
target p n1 started
target q n1 started
"#,
);

#[test]
fn memory_suffices_or_is_refused_to_why(rt: HostRuntime) {
    assert_whole_or_refused(&rt, rt.alloc(), "why", HELD);
}

/// Two that must be apart change places.
const SWAP: Row = (
    r#"node n1
node n2
primitive a Dummy
primitive b Dummy
colocation x -inf: a b
location la a 100: n2
location lb b 100: n1
%status
quorum yes
node n1 online
node n2 online
op n1 a start 0 0 900
op n2 b start 0 0 900
op n2 a monitor 0 7 900
op n1 b monitor 0 7 900
"#,
    r#"action 1 stop a n1
action 2 stop b n2
action 3 start a n2 after 1 2
action 4 start b n1 after 1 2
"#,
);

#[test]
fn memory_suffices_or_is_refused_for_a_graph(rt: HostRuntime) {
    assert_whole_or_refused(&rt, rt.alloc(), "graph", SWAP);
}

/// The other node takes what runs on the one.
const MOVES: Row = (
    r#"node n1
node n2
primitive vip IPaddr2
%status
now 1000
quorum yes
node n1 online
node n2 online
op n1 vip start 0 0 900
op n2 vip monitor 0 7 900
"#,
    r#"loss n1
target vip n2 started
loss n2
target vip n1 started
"#,
);

#[test]
fn memory_suffices_or_is_refused_to_survive(rt: HostRuntime) {
    assert_whole_or_refused(&rt, rt.alloc(), "survive", MOVES);
}

/// Comments, blank lines and leading zeros make no difference.
const WRITTEN_FREELY: Row = (
    r#"node n1
node n2
primitive vip IPaddr2
%status
now 1000
quorum yes
node n1 online
node n2 online
%trace
# as seen
transition 01

target   vip n1 started
begin 1 probe vip n1
begin 2 probe vip n2
end 1 \
007
end 2 7
begin 3 start vip n1
end 3 0
complete 1
"#,
    "lawful\n",
);

#[test]
fn memory_suffices_or_is_refused_to_audit(rt: HostRuntime) {
    assert_whole_or_refused(&rt, rt.alloc(), "audit", WRITTEN_FREELY);
}

/// A promotion moves to another node, and what goes with it.
const PROMOTION_MOVES: Row = (
    r#"node n1
node n2
primitive drbd ocf:linbit:drbd
primitive vip IPaddr2
ms md drbd meta notify=true
colocation c inf: vip md:Master
order o inf: md:promote vip:start
%status
quorum yes
node n1 online
node n2 online
op n1 drbd start 0 0 900
op n1 drbd promote 0 0 901
op n2 drbd start 0 0 900
op n1 vip start 0 0 902
op n2 vip monitor 0 7 900
promotion n1 drbd 10
promotion n2 drbd 20
"#,
    r#"transition 1
target drbd n1 started
target drbd n2 promoted
target vip n2 started
begin 1 stop vip n1
end 1 0
begin 2 demote drbd n1
end 2 0
begin 3 promote drbd n2
end 3 0
begin 4 start vip n2
end 4 0
complete 1
"#,
);

#[test]
fn memory_suffices_or_is_refused_to_promote(rt: HostRuntime) {
    assert_whole_or_between(&rt, rt.alloc(), PROMOTION_MOVES, "");
}

/// A node is lost while nothing is to be done.
#[test]
fn memory_suffices_or_is_refused_to_replay(rt: HostRuntime) {
    assert_whole_or_between(&rt, rt.alloc(), (LOSS, LOSS_RUN), "lost n2");
}
