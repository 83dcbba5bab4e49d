//! The lines of nodes, primitives and groups.

ghost use Rattle.std.specs.Prelude.{◌≡◌, ◌<◌, ◌+◌, ◌++◌, OnOk};
ghost use Rattle.std.specs.String.{string_bytes};
ghost use Rattle.cases.specs.Case as case;

use crate::Draws;
use std::alloc::AllocError;

fn push_node(text: &mut String, number: u32) -> Result<(), AllocError>
    ensures { OnOk result (string_bytes text.new ≡ string_bytes text.old ++ case.case_node_line number) }
{
    writeln!(text, "node n{number}")
}

/// `n1` to `n60`.
#[tactic(auto, using(crate::proofs::LineLaws::lines_begin, crate::proofs::LineLaws::lines_more))]
fn push_nodes(text: &mut String) -> Result<(), AllocError>
    ensures { OnOk result (string_bytes text.new ≡ string_bytes text.old ++ case.lines case.case_node_line 1 61) }
{
    for number in 1..=60 {
        push_node(text, number)?;
    }
    Ok(())
}

/// The monitor of a primitive, if it has one.
fn monitor_words(number: u32) -> &'static str
    ensures { result.now ≡ case.monitor_words number }
{
    if number % 2 == 0 {
        " op monitor interval=10s"
    } else {
        ""
    }
}

/// A primitive of this priority.
fn push_primitive_with(text: &mut String, number: u32, priority: u32) -> Result<(), AllocError>
    ensures { OnOk result (string_bytes text.new ≡ string_bytes text.old ++ case.primitive_with number priority) }
{
    let monitor = monitor_words(number);
    writeln!(
        text,
        "primitive r{number} Dummy meta priority={priority}{monitor}"
    )
}

fn push_primitive(text: &mut String, draws: &mut Draws, number: u32) -> Result<(), AllocError>
    requires low { number < 1000 }
    requires drawn { draws.old.drawn ≡ number }
    ensures text { OnOk result (string_bytes text.new
        ≡ string_bytes text.old ++ case.primitive_line draws.old.number number) }
    ensures number { draws.new.number ≡ draws.old.number }
    ensures drawn { draws.new.drawn ≡ number + 1 }
{
    let priority = draws.below(10);
    push_primitive_with(text, number, priority)
}

/// `r1` to `r400`: each has a priority, and those with even numbers have a monitor.
#[tactic(auto, using(crate::proofs::LineLaws::lines_begin, crate::proofs::LineLaws::lines_more))]
fn push_primitives(text: &mut String, draws: &mut Draws) -> Result<(), AllocError>
    requires drawn { draws.old.drawn ≡ 1 }
    ensures text { OnOk result (string_bytes text.new
        ≡ string_bytes text.old ++ case.lines (case.primitive_line draws.old.number) 1 401) }
    ensures number { OnOk result (draws.new.number ≡ draws.old.number) }
    ensures drawn { OnOk result (draws.new.drawn ≡ 401) }
{
    for number in 1..=400 {
        push_primitive(text, draws, number)?;
    }
    Ok(())
}

fn push_group(text: &mut String, number: u32) -> Result<(), AllocError>
    requires some { 0 < number }
    requires low { number < 1000 }
    ensures { OnOk result (string_bytes text.new ≡ string_bytes text.old ++ case.group_line number) }
{
    let last = 5 * number;
    writeln!(
        text,
        "group g{number} r{} r{} r{} r{} r{last}",
        last - 4,
        last - 3,
        last - 2,
        last - 1
    )
}

/// `g1` to `g20`, of five primitives each.
#[tactic(auto, using(crate::proofs::LineLaws::lines_begin, crate::proofs::LineLaws::lines_more))]
fn push_groups(text: &mut String) -> Result<(), AllocError>
    ensures { OnOk result (string_bytes text.new ≡ string_bytes text.old ++ case.lines case.group_line 1 21) }
{
    for number in 1..=20 {
        push_group(text, number)?;
    }
    Ok(())
}

/// The nodes, the primitives and the groups.
pub(crate) fn push_resources(text: &mut String, draws: &mut Draws) -> Result<(), AllocError>
    requires drawn { draws.old.drawn ≡ 1 }
    ensures text { OnOk result (string_bytes text.new ≡ string_bytes text.old ++ case.resources_text draws.old.number) }
    ensures number { OnOk result (draws.new.number ≡ draws.old.number) }
    ensures drawn { OnOk result (draws.new.drawn ≡ 401) }
{
    push_nodes(text)?;
    push_primitives(text, draws)?;
    push_groups(text)
}
