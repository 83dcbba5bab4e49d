//! What the word `world` writes.

use crate::outcome::{Call, EASY, Pace, assert_outcome, easy};
use crate::replay_live::HEAD;
use sim_core::Status;
use std::alloc::Global;
use std::process::Abort;

/// The number of a simulated cluster, an input, and the text that is written.
type WorldRow = (&'static str, &'static str, &'static str);

/// A probe isn't answered in time.
const TIMES_OUT: WorldRow = (
    "7",
    HEAD,
    r#"transition 1
target vip n1 started
begin 1 probe vip n1
begin 2 probe vip n2
timeout 1
end 2 7
aborted 1
transition 2
target vip n1 started
begin 1 stop vip n1
end 1 0
begin 2 start vip n1
end 2 0
complete 2
real vip n1 started
ended complete
"#,
);

/// The input has no node, and no draw is made. Its results make no difference.
const EMPTY: WorldRow = (
    "3",
    "%results\nend 9 0\n",
    "transition 1\ncomplete 1\nended complete\n",
);

/// The input gets this status and this text in the simulated cluster of the number.
fn assert_lived(
    rt: &impl Abort,
    alloc: Global,
    row: &WorldRow,
    writes: Pace<'_>,
    status: Status,
    text: &str,
) {
    let words = ["world", row.0];
    let call = Call {
        writes,
        ..easy(&words, row.1.as_bytes())
    };
    assert_outcome(rt, alloc, &call, status, text);
}

#[test]
fn a_simulated_cluster_lives(rt: HostRuntime) {
    assert_lived(&rt, rt.alloc(), &TIMES_OUT, EASY, Status::Done, TIMES_OUT.2);
}

#[test]
fn a_text_that_is_cut_short(rt: HostRuntime) {
    let writes = Pace {
        step: 3,
        fails: &[2],
    };
    assert_lived(&rt, rt.alloc(), &EMPTY, writes, Status::WriteFault, "tra");
}
