use crate::checked::assert_row;
use crate::reading::lines;
use crm_parse::{ParseCause, ParseFault, audit_sections, sections};
use std::alloc::Global;
use std::process::Abort;

/// The places of the two sections and the end, or the line of the fault.
type Places = Result<(u32, u32, u32), u32>;

/// The line of a section that is out of its place, and 0 for another fault.
fn line_of(fault: ParseFault) -> u32 {
    match fault {
        ParseFault::At {
            line,
            cause: ParseCause::UnknownStatement,
        } => line,
        _ => 0,
    }
}

fn results_at(rt: &impl Abort, alloc: Global, text: &str) -> Places {
    let lines = lines(rt, alloc, text);
    assert!(rt; lines.len() < 10);
    match sections(lines.as_slice()) {
        Ok(marks) => Ok((marks.status_at, marks.results_at, marks.end)),
        Err(fault) => Err(line_of(fault)),
    }
}

fn trace_at(rt: &impl Abort, alloc: Global, text: &str) -> Places {
    let lines = lines(rt, alloc, text);
    assert!(rt; lines.len() < 10);
    match audit_sections(lines.as_slice()) {
        Ok(marks) => Ok((marks.status_at, marks.trace_at, marks.end)),
        Err(fault) => Err(line_of(fault)),
    }
}

const WITH_RESULTS: &[(&str, Places)] = &[
    ("", Ok((0, 0, 0))),
    ("node n1", Ok((1, 1, 1))),
    ("node n1\n%status\nnow 1\n%results\nend 1 0", Ok((1, 3, 5))),
    ("node n1\n\n%results\nend 1 0", Ok((1, 1, 3))),
    ("%status", Ok((0, 1, 1))),
    ("node n1\n%status x", Err(2)),
    ("node n1\n%status\n\n%status", Err(4)),
    ("%results\n%status", Err(2)),
    ("%results\n%results", Err(2)),
    ("%status\n%trace", Err(2)),
    ("node n1\n%x\n%status x", Err(2)),
    ("node n1 %status", Ok((1, 1, 1))),
];

#[test]
fn sections_with_results(rt: HostRuntime) {
    for (text, want) in WITH_RESULTS {
        assert_row(&rt, results_at(&rt, rt.alloc(), text) == *want, text);
    }
}

const WITH_TRACE: &[(&str, Places)] = &[
    ("node n1\n%status\n%trace\ntransition 1", Ok((1, 2, 4))),
    ("node n1\n%trace", Ok((1, 1, 2))),
    ("node n1\n%results", Err(2)),
    ("%trace\n%status", Err(2)),
];

#[test]
fn sections_with_a_trace(rt: HostRuntime) {
    for (text, want) in WITH_TRACE {
        assert_row(&rt, trace_at(&rt, rt.alloc(), text) == *want, text);
    }
}
