//! What is read of status and result lines.

ghost use Rattle.std.specs.Prelude.{◌≡◌, ◌<◌, ◌^◌};
ghost use Rattle.cluster_types.specs.Journals.{moment_of};

use crate::checked::{assert_number, assert_row};
use crate::resolved_texts::cluster;
use cluster_types::{Answer, Journal};
use crm_lex::{Line, WordBuf, lex_one, logical_lines};
use input_reading::{
    InputCause, Recovery, ResultCause, ResultFault, ResultLine, StatusFault, class_of, read_result,
    read_results, read_status,
};
use listed::Listed;
use names::Names;
use std::alloc::{AllocError, Global};
use std::process::Abort;

/// The nodes `n1` and `n2`, the plain leaf `vip` and the promotable leaf `db`.
const CONFIGURATION: &str =
    "node n1|node n2|primitive vip ocf:heartbeat:IPaddr2 op monitor interval=10s|\
    primitive db ocf:heartbeat:pgsql op monitor interval=10s op monitor interval=11s role=Promoted|\
    clone dbs db meta promotable=true";

const WITHOUT_STARTUP_FENCING: &str = "node n1|node n2|property startup-fencing=false";

fn lines(rt: &impl Abort, alloc: Global, text: &str) -> Vec<Line> {
    assert!(rt; text.len() < 4_294_967_296);
    logical_lines(alloc, text.as_bytes()).expect(rt, "the words are read")
}

/// A status, and its first journal after the joins, or its fault.
type Row = (&'static str, &'static str);

/// What is asked with the names of a configuration.
#[derive(Clone, Copy)]
enum Asked {
    Statuses(&'static [Row]),
    Results(&'static [Row]),
    /// As many results as may be, and one more.
    Many,
    /// Result lines one by one.
    Lines(&'static [OneLine]),
}

fn ask_with(rt: &impl Abort, alloc: Global, names: &Names<'_>, asked: Asked) {
    match asked {
        Asked::Statuses(rows) => assert_statuses(rt, alloc, names, rows),
        Asked::Results(rows) => assert_results(rt, alloc, names, rows),
        Asked::Many => ask_for_many(rt, alloc, names),
        Asked::Lines(rows) => assert_lines(rt, alloc, names, rows),
    }
}

/// One function owns the cluster and its names for all of these tests: each drop of them is proved.
fn ask(rt: &impl Abort, alloc: Global, configuration: &str, asked: Asked) {
    let cluster = cluster(rt, alloc, configuration);
    let names = Names::new(alloc, &cluster).expect(rt, "memory");
    ask_with(rt, alloc, &names, asked);
}

const JOURNALS: &[Row] = &[
    (
        "",
        "Up { node: 0 } Up { node: 1 } Lost { node: 0 } Lost { node: 1 } Quorum { yes: false } Wait { seconds: 0 } ",
    ),
    (
        "now 1000\nquorum yes\nnode n1 online\nnode n2 offline\n",
        "Up { node: 0 } Up { node: 1 } Down { node: 1 } Quorum { yes: true } Wait { seconds: 1000 } ",
    ),
    (
        "quorum no\nnode n2 unclean\nnow 1099511627775\nnode n1 online\n",
        "Up { node: 0 } Up { node: 1 } Lost { node: 1 } Quorum { yes: false } Wait { seconds: 1099511627775 } ",
    ),
    (
        "node n1 offline\nop n1 vip stop 0 0 9\nnode n2 online\n",
        "Up { node: 0 } Up { node: 1 } Ended { number: 0, action: Operation { op: Stop, leaf: 0, node: 0, interval_ms: 0, role: Started }, outcome: Code(0), moment: 9 } \
        Down { node: 0 } Quorum { yes: false } Wait { seconds: 0 } ",
    ),
    (
        "node n1 online\nnode n2 online\nop n1 vip start 00 1 0900\n",
        "Up { node: 0 } Up { node: 1 } Ended { number: 0, action: Operation { op: Start, leaf: 0, node: 0, interval_ms: 0, role: Started }, outcome: Code(1), moment: 900 } \
        Quorum { yes: false } Wait { seconds: 0 } ",
    ),
    (
        "node n1 online\nnode n2 online\nop n2 vip monitor 0 7 900\n",
        "Up { node: 0 } Up { node: 1 } Ended { number: 0, action: Probe { leaf: 0, node: 1 }, outcome: Code(7), moment: 900 } Quorum { yes: false } Wait { seconds: 0 } ",
    ),
    (
        "node n1 online\nnode n2 online\nop n1 db monitor 010000 190 1\n",
        "Up { node: 0 } Up { node: 1 } Ended { number: 0, action: Operation { op: Monitor, leaf: 1, node: 0, interval_ms: 10000, role: Started }, outcome: Code(190), moment: 1 } \
        Quorum { yes: false } Wait { seconds: 0 } ",
    ),
    (
        "node n1 online\nnode n2 online\nop n1 db monitor 11000 8 1\n",
        "Up { node: 0 } Up { node: 1 } Ended { number: 0, action: Operation { op: Monitor, leaf: 1, node: 0, interval_ms: 11000, role: Promoted }, outcome: Code(8), moment: 1 } \
        Quorum { yes: false } Wait { seconds: 0 } ",
    ),
    (
        "node n1 online\nnode n2 online\nop n1 db monitor 4294967295 timeout 1\n",
        "Up { node: 0 } Up { node: 1 } Ended { number: 0, action: Operation { op: Monitor, leaf: 1, node: 0, interval_ms: 4294967295, role: Started }, outcome: TimedOut, moment: 1 } \
        Quorum { yes: false } Wait { seconds: 0 } ",
    ),
    (
        "node n1 online\nnode n2 online\nop n2 db promote 0 0 5\ncleanup n2 db\nop n2 db demote 0 255 1099511627775\ncleanup n2 db\n",
        "Up { node: 0 } Up { node: 1 } Ended { number: 0, action: Operation { op: Promote, leaf: 1, node: 1, interval_ms: 0, role: Started }, outcome: Code(0), moment: 5 } \
        Cleanup { leaf: 1, node: 1 } \
        Ended { number: 0, action: Operation { op: Demote, leaf: 1, node: 1, interval_ms: 0, role: Started }, outcome: Code(255), moment: 1099511627775 } \
        Cleanup { leaf: 1, node: 1 } Quorum { yes: false } Wait { seconds: 0 } ",
    ),
    (
        "node n1 online\nnode n2 online\npromotion n2 db -inf\npromotion n1 db 5\n",
        "Up { node: 0 } Up { node: 1 } Quorum { yes: false } Wait { seconds: 0 } \
        Promotion { leaf: 1, node: 1, score: Score { points: -1000000 } } Promotion { leaf: 1, node: 0, score: Score { points: 5 } } ",
    ),
    ("node 'n1' online\nnode \"n2\" on\\\nline\n", "2 BadValue"),
    ("# now\n\nnow 1\n now 2\n", "4 Repeated"),
    (
        "node n2 online\nnode n1 offline\n",
        "Up { node: 0 } Up { node: 1 } Down { node: 0 } Quorum { yes: false } Wait { seconds: 0 } ",
    ),
];

const STATUS_FAULTS: &[Row] = &[
    ("stonith n1", "1 UnknownStatement"),
    ("Now 1", "1 UnknownStatement"),
    ("end 1 0", "1 UnknownStatement"),
    ("\"\"", "1 UnknownStatement"),
    ("now", "1 MissingWord"),
    ("now x", "1 BadValue"),
    ("now -1", "1 BadValue"),
    ("now ''", "1 BadValue"),
    ("now 1 2", "1 ExtraWord"),
    ("now x 2", "1 BadValue"),
    ("now 1099511627776", "1 BadValue"),
    ("now 18446744073709551616", "1 BadValue"),
    ("now 1\nnow 1", "2 Repeated"),
    ("now 1\nnow", "2 MissingWord"),
    ("now 1\nnow x", "2 BadValue"),
    ("now 1\nnow 2 3", "2 ExtraWord"),
    ("quorum", "1 MissingWord"),
    ("quorum Yes", "1 BadValue"),
    ("quorum yes no", "1 ExtraWord"),
    ("quorum yes\nnow 1\nquorum no", "3 Repeated"),
    ("node n3 online", "1 UnknownName"),
    ("node vip online", "1 UnknownName"),
    ("node n1", "1 MissingWord"),
    ("node n1 standby", "1 BadValue"),
    ("node n1 online 1", "1 ExtraWord"),
    (
        "node n1 online\nnode n2 online\nnode n1 unclean",
        "3 Repeated",
    ),
    ("op n1 vip", "1 MissingWord"),
    ("op vip n1 start 0 0 1", "1 UnknownName"),
    ("op n1 n2 start 0 0 1", "1 UnknownName"),
    ("op n1 vip notify 0 0 1", "1 BadValue"),
    ("op n1 vip promote", "1 BadValue"),
    ("op n1 vip demote 0 0 1", "1 BadValue"),
    ("op n1 vip start 5 0 1", "1 BadValue"),
    ("op n1 vip monitor 4294967296 0 1", "1 BadValue"),
    ("op n1 vip start 0 256 1", "1 BadValue"),
    ("op n1 vip start 0 Timeout 1", "1 BadValue"),
    ("op n1 vip start 0 0 1099511627776", "1 BadValue"),
    ("op n1 vip start 0 0", "1 MissingWord"),
    ("op n1 vip start 0 0 1 2", "1 ExtraWord"),
    ("cleanup n1", "1 MissingWord"),
    ("cleanup n1 web", "1 UnknownName"),
    ("cleanup n1 vip vip", "1 ExtraWord"),
    ("promotion n1 vip", "1 BadValue"),
    ("promotion n1 db", "1 MissingWord"),
    ("promotion n1 db 5x", "1 BadValue"),
    ("promotion n1 db 5 6", "1 ExtraWord"),
    (
        "promotion n1 db 5\npromotion n2 db 5\npromotion n1 db 6",
        "3 Repeated",
    ),
];

fn print_journal(out: &mut String, journal: &Journal) -> Result<(), AllocError> {
    for event in journal.events.iter() {
        write!(out, "{event:?} ")?;
    }
    for promotion in journal.promotions.iter() {
        write!(out, "{promotion:?} ")?;
    }
    Ok(())
}

fn print_status(out: &mut String, read: &Result<Journal, StatusFault>) -> Result<(), AllocError> {
    match read {
        Ok(journal) => print_journal(out, journal),
        Err(StatusFault::At { line, cause }) => {
            write!(out, "{line} {}", InputCause::Status(*cause).name())
        }
        Err(StatusFault::NoMemory) => write!(out, "no memory"),
    }
}

fn status(rt: &impl Abort, alloc: Global, names: &Names<'_>, text: &str) -> String {
    let lines = lines(rt, alloc, text);
    let read = read_status(alloc, names, lines.as_slice());
    let mut out = String::new(alloc);
    print_status(&mut out, &read).expect(rt, "memory");
    out
}

fn assert_statuses(rt: &impl Abort, alloc: Global, names: &Names<'_>, rows: &[Row]) {
    for (text, want) in rows {
        let read = status(rt, alloc, names, text);
        assert_row(rt, read.as_str() == *want, text);
    }
}

#[test]
fn statuses_are_read(rt: HostRuntime) {
    ask(&rt, rt.alloc(), CONFIGURATION, Asked::Statuses(JOURNALS));
    ask(
        &rt,
        rt.alloc(),
        CONFIGURATION,
        Asked::Statuses(STATUS_FAULTS),
    );
}

const UNSAID_IS_DOWN: &[Row] = &[(
    "node n1 online\n",
    "Up { node: 0 } Up { node: 1 } Down { node: 1 } Quorum { yes: false } Wait { seconds: 0 } ",
)];

#[test]
fn unsaid_nodes_are_down_without_startup_fencing(rt: HostRuntime) {
    let asked = Asked::Statuses(UNSAID_IS_DOWN);
    ask(&rt, rt.alloc(), WITHOUT_STARTUP_FENCING, asked);
}

/// Result lines that are taken at the moment 1000, and their answers or their fault.
const RESULTS: &[Row] = &[
    ("", ""),
    ("end 1 7", "1 End { number: 1, code: 7 } "),
    (
        "\nend 04294967295 0255",
        "2 End { number: 4294967295, code: 255 } ",
    ),
    ("end 0 0", "1 BadValue"),
    ("end 4294967296 0", "1 BadValue"),
    ("end 1 256", "1 BadValue"),
    ("end 1 timeout", "1 BadValue"),
    ("end", "1 MissingWord"),
    ("end 1", "1 MissingWord"),
    ("end 1 2 3", "1 ExtraWord"),
    ("end 2 x", "1 BadValue"),
    ("timeout 2", "1 Timeout { number: 2 } "),
    ("timeout n1", "1 BadValue"),
    ("timeout 2 3", "1 ExtraWord"),
    ("lost n1\nup n2", "1 Lost { node: 0 } 2 Up { node: 1 } "),
    ("lost vip", "1 UnknownName"),
    ("lost", "1 MissingWord"),
    ("lost n1 n2", "1 ExtraWord"),
    ("up n3", "1 UnknownName"),
    (
        "quorum no\nquorum yes",
        "1 Quorum { yes: false } 2 Quorum { yes: true } ",
    ),
    ("quorum off", "1 BadValue"),
    (
        "wait 1099511626775\nwait 0",
        "1 Wait { seconds: 1099511626775 } 2 Wait { seconds: 0 } ",
    ),
    ("wait 1099511626776", "1 BadValue"),
    ("wait 1099511626775\nwait 1", "2 BadValue"),
    ("wait", "1 MissingWord"),
    ("wait 1 s", "1 ExtraWord"),
    (
        "report n1 vip 10000 7",
        "1 Report { node: 0, leaf: 0, interval_ms: 10000, code: 7 } ",
    ),
    (
        "report n2 db 4294967295 0",
        "1 Report { node: 1, leaf: 1, interval_ms: 4294967295, code: 0 } ",
    ),
    ("report n1 vip 0 7", "1 BadValue"),
    ("report n1 n1 10000 7", "1 UnknownName"),
    ("report vip n1 10000 7", "1 UnknownName"),
    ("report n1 vip 10000", "1 MissingWord"),
    ("report n1 vip 10000 256", "1 BadValue"),
    ("report n1 vip 10000 7 8", "1 ExtraWord"),
    ("begin 1 probe vip n1", "1 UnknownStatement"),
    ("End 1 0", "1 UnknownStatement"),
    ("end 1 0\n%status\nend x", "2 UnknownStatement"),
    ("end 1 0\nend 1\nend x", "2 MissingWord"),
];

fn print_answers(out: &mut String, results: &[ResultLine]) -> Result<(), AllocError> {
    for result in results {
        let (line, answer) = (result.line, result.answer);
        write!(out, "{line} {answer:?} ")?;
    }
    Ok(())
}

fn print_results(
    out: &mut String,
    read: &Result<Vec<ResultLine>, ResultFault>,
) -> Result<(), AllocError> {
    match read {
        Ok(results) => print_answers(out, results.as_slice()),
        Err(ResultFault::At { line, cause }) => {
            write!(out, "{line} {}", InputCause::Results(*cause).name())
        }
        Err(ResultFault::NoMemory) => write!(out, "no memory"),
    }
}

/// The journal of a status at the moment 1000.
fn at_1000(rt: &impl Abort, alloc: Global, names: &Names<'_>) -> Journal
    ensures { moment_of result.events < 2 ^ 40 }
{
    let lines = lines(rt, alloc, "now 1000\n");
    read_status(alloc, names, lines.as_slice()).expect(rt, "the status is read")
}

fn results(rt: &impl Abort, alloc: Global, names: &Names<'_>, text: &str) -> String {
    let journal = at_1000(rt, alloc, names);
    let lines = lines(rt, alloc, text);
    let read = read_results(alloc, names, &journal, lines.as_slice());
    let mut out = String::new(alloc);
    print_results(&mut out, &read).expect(rt, "memory");
    out
}

fn assert_results(rt: &impl Abort, alloc: Global, names: &Names<'_>, rows: &[Row]) {
    for (text, want) in rows {
        let read = results(rt, alloc, names, text);
        assert_row(rt, read.as_str() == *want, text);
    }
}

#[test]
fn results_are_read(rt: HostRuntime) {
    ask(&rt, rt.alloc(), CONFIGURATION, Asked::Results(RESULTS));
}

/// What is read of so many lines that let no time go by, and a last one.
fn results_of_waits(
    rt: &impl Abort,
    alloc: Global,
    names: &Names<'_>,
    count: u32,
    last: &str,
) -> String {
    let mut text = String::new(alloc);
    for _ in 0..count {
        text.push_str("wait 0\n").expect(rt, "memory");
    }
    text.push_str(last).expect(rt, "memory");
    results(rt, alloc, names, text.as_str())
}

/// Reads as many results as may be, and one more.
fn ask_for_many(rt: &impl Abort, alloc: Global, names: &Names<'_>) {
    let faulty = results_of_waits(rt, alloc, names, 9_999, "wait x\n");
    assert!(rt; faulty.as_str() == "10000 BadValue");
    let most = results_of_waits(rt, alloc, names, 10_000, "");
    assert!(rt; most.as_str().ends_with("10000 Wait { seconds: 0 } "));
    let more = results_of_waits(rt, alloc, names, 10_000, "%results x\n");
    assert!(rt; more.as_str() == "10001 TooManyResults");
}

#[test]
fn ten_thousand_results_are_read(rt: HostRuntime) {
    ask(&rt, rt.alloc(), CONFIGURATION, Asked::Many);
}

/// A moment, how many results came before, the bytes of a line, and its answer or its fault.
type OneLine = (u64, u32, &'static str, &'static str);

const LINES: &[OneLine] = &[
    (0, 0, "end 1 7\n", "Ok(End { number: 1, code: 7 })"),
    (
        5,
        9_999,
        "wait 1099511627770",
        "Ok(Wait { seconds: 1099511627770 })",
    ),
    (
        6,
        9_999,
        "wait 1099511627770",
        "Err(At { line: 7, cause: Form(BadValue) })",
    ),
    (
        0,
        10_000,
        "end 1 7\n",
        "Err(At { line: 7, cause: TooManyResults })",
    ),
    (
        0,
        10_000,
        "%results\n",
        "Err(At { line: 7, cause: TooManyResults })",
    ),
    (
        0,
        0,
        "%results\n",
        "Err(At { line: 7, cause: Form(UnknownStatement) })",
    ),
    (
        0,
        0,
        "report n1 vip 1 0 2 3 4 5 6 7 8\n",
        "Err(At { line: 7, cause: Form(ExtraWord) })",
    ),
    (
        0,
        0,
        "report n1 \\\n 'vip' 1 0\n",
        "Ok(Report { node: 0, leaf: 0, interval_ms: 1, code: 0 })",
    ),
    (
        0,
        0,
        "lost n9 9 9 9 9 9 9 9 9\n",
        "Err(At { line: 7, cause: Form(UnknownName) })",
    ),
    (1_099_511_627_775, 0, "wait 0", "Ok(Wait { seconds: 0 })"),
];

fn one_result(
    rt: &impl Abort,
    names: &Names<'_>,
    words: &mut WordBuf,
    row: &OneLine,
) -> Result<Answer, ResultFault> {
    let (moment, before, text, _) = *row;
    assert!(rt; moment < 1_099_511_627_776);
    assert!(rt; text.len() < 100);
    assert!(rt; lex_one(7, text.as_bytes(), words).is_ok());
    read_result(names, moment, before, 7, words)
}

/// Whether this is read of the line.
fn is_read(
    rt: &impl Abort,
    alloc: Global,
    names: &Names<'_>,
    words: &mut WordBuf,
    row: &OneLine,
) -> bool {
    let read = one_result(rt, names, words, row);
    let shown = format!(in alloc; "{read:?}").expect(rt, "memory");
    shown.as_str() == row.3
}

fn assert_lines(rt: &impl Abort, alloc: Global, names: &Names<'_>, rows: &[OneLine]) {
    let mut words = WordBuf::new(alloc).expect(rt, "memory");
    for row in rows {
        assert!(rt; is_read(rt, alloc, names, &mut words, row));
    }
}

#[test]
fn results_are_read_line_by_line(rt: HostRuntime) {
    ask(&rt, rt.alloc(), CONFIGURATION, Asked::Lines(LINES));
}

/// Exit codes and their classes.
const CLASSES: &[(u8, Recovery)] = &[
    (0, Recovery::Soft),
    (1, Recovery::Soft),
    (2, Recovery::Hard),
    (3, Recovery::Hard),
    (4, Recovery::Hard),
    (5, Recovery::Hard),
    (6, Recovery::Fatal),
    (7, Recovery::Soft),
    (9, Recovery::Soft),
    (191, Recovery::Soft),
    (255, Recovery::Soft),
];

#[test]
fn codes_have_their_class(rt: HostRuntime) {
    for (code, class) in CLASSES {
        assert_number(&rt, class_of(*code) == *class, i64::from(*code));
    }
}

#[test]
fn faults_print_their_line(rt: HostRuntime) {
    let fault = ResultFault::At {
        line: 7,
        cause: ResultCause::TooManyResults,
    };
    let shown = format!(in rt.alloc(); "{fault}").expect(&rt, "memory");
    assert!(rt; shown.as_str() == "line 7: This is the 10,001st result line.");
    let fault = StatusFault::NoMemory;
    let shown = format!(in rt.alloc(); "{fault}").expect(&rt, "memory");
    assert!(rt; shown.as_str() == "out of memory");
}
