//! The lines of locations, colocations and orders.

ghost use Rattle.std.specs.Prelude.{◌≡◌, ◌<◌, ◌≤◌, ◌+◌, ◌*◌, ◌++◌, OnOk};
ghost use Rattle.std.specs.String.{string_bytes};
ghost use Rattle.cases.specs.Case as case;

use crate::Draws;
use std::alloc::AllocError;

fn push_location(text: &mut String, draws: &mut Draws, number: u32) -> Result<(), AllocError>
    requires low { number < 1000 }
    requires drawn { draws.old.drawn ≡ 2 * number + 199 }
    ensures text { OnOk result (string_bytes text.new
        ≡ string_bytes text.old ++ case.location_line draws.old.number number) }
    ensures number { draws.new.number ≡ draws.old.number }
    ensures drawn { draws.new.drawn ≡ 2 * number + 201 }
{
    let score = draws.below(1000);
    let node = draws.below(60) + 1;
    writeln!(text, "location l{number} r{number} {score}: n{node}")
}

/// `l101` to `l400`: the primitive of each number prefers a node.
#[tactic(auto, using(crate::proofs::LineLaws::lines_begin, crate::proofs::LineLaws::lines_more))]
fn push_locations(text: &mut String, draws: &mut Draws) -> Result<(), AllocError>
    requires drawn { draws.old.drawn ≡ 401 }
    ensures text { OnOk result (string_bytes text.new
        ≡ string_bytes text.old ++ case.lines (case.location_line draws.old.number) 101 401) }
    ensures number { OnOk result (draws.new.number ≡ draws.old.number) }
    ensures drawn { OnOk result (draws.new.drawn ≡ 1001) }
{
    for number in 101..=400 {
        push_location(text, draws, number)?;
    }
    Ok(())
}

fn push_colocation(text: &mut String, draws: &mut Draws, number: u32) -> Result<(), AllocError>
    requires low { number < 1000 }
    requires drawn { draws.old.drawn ≡ number + 1000 }
    ensures text { OnOk result (string_bytes text.new
        ≡ string_bytes text.old ++ case.colocation_line draws.old.number number) }
    ensures number { draws.new.number ≡ draws.old.number }
    ensures drawn { draws.new.drawn ≡ number + 1001 }
{
    let score = draws.below(100);
    writeln!(
        text,
        "colocation c{number} {score}: r{} r{}",
        200 + number,
        100 + number
    )
}

/// `c1` to `c100`, with finite scores.
#[tactic(auto, using(crate::proofs::LineLaws::lines_begin, crate::proofs::LineLaws::lines_more))]
fn push_colocations(text: &mut String, draws: &mut Draws) -> Result<(), AllocError>
    requires drawn { draws.old.drawn ≡ 1001 }
    ensures text { OnOk result (string_bytes text.new
        ≡ string_bytes text.old ++ case.lines (case.colocation_line draws.old.number) 1 101) }
{
    for number in 1..=100 {
        push_colocation(text, draws, number)?;
    }
    Ok(())
}

fn push_separation(text: &mut String, number: u32) -> Result<(), AllocError>
    requires low { number < 1000 }
    ensures { OnOk result (string_bytes text.new ≡ string_bytes text.old ++ case.separation_line number) }
{
    writeln!(
        text,
        "colocation s{number} -inf: r{} r{}",
        300 + number,
        200 + number
    )
}

/// `s1` to `s50`: each keeps two primitives apart.
#[tactic(auto, using(crate::proofs::LineLaws::lines_begin, crate::proofs::LineLaws::lines_more))]
fn push_separations(text: &mut String) -> Result<(), AllocError>
    ensures { OnOk result (string_bytes text.new ≡ string_bytes text.old ++ case.lines case.separation_line 1 51) }
{
    for number in 1..=50 {
        push_separation(text, number)?;
    }
    Ok(())
}

/// The kind of an order.
fn kind_word(number: u32) -> &'static str
    ensures { result.now ≡ case.kind_word number }
{
    if number % 2 == 0 {
        "Optional"
    } else {
        "Mandatory"
    }
}

fn push_order(text: &mut String, number: u32) -> Result<(), AllocError>
    requires low { number < 1000 }
    ensures { OnOk result (string_bytes text.new ≡ string_bytes text.old ++ case.order_line number) }
{
    let kind = kind_word(number);
    writeln!(
        text,
        "order o{number} {kind}: r{} r{}",
        100 + number,
        200 + number
    )
}

/// `o1` to `o100`: those with odd numbers are mandatory.
#[tactic(auto, using(crate::proofs::LineLaws::lines_begin, crate::proofs::LineLaws::lines_more))]
fn push_orders(text: &mut String) -> Result<(), AllocError>
    ensures { OnOk result (string_bytes text.new ≡ string_bytes text.old ++ case.lines case.order_line 1 101) }
{
    for number in 1..=100 {
        push_order(text, number)?;
    }
    Ok(())
}

/// The locations, the colocations and the orders.
pub(crate) fn push_rules(text: &mut String, draws: &mut Draws) -> Result<(), AllocError>
    requires drawn { draws.old.drawn ≡ 401 }
    ensures { OnOk result (string_bytes text.new ≡ string_bytes text.old ++ case.rules_text draws.old.number) }
{
    push_locations(text, draws)?;
    push_colocations(text, draws)?;
    push_separations(text)?;
    push_orders(text)
}
