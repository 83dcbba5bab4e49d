//! The text of a case.

ghost use Rattle.std.specs.Prelude.{◌≡◌, ◌<◌, ◌++◌, ◌^◌, IfOk, OnOk, length};
ghost use Rattle.std.specs.String.{string_bytes};
ghost use Rattle.cases.specs.Case.{case_text, lost_node};

use crate::Draws;
use crate::resources::push_resources;
use crate::rules::push_rules;
use crate::state::{push_results, push_status};
use faults::NoMemory;
use std::alloc::{AllocError, Global};

/// The node that is lost, by its number. It is drawn before all others.
fn draw_lost_node(draws: &mut Draws) -> u32
    requires drawn { draws.old.drawn ≡ 0 }
    ensures value { result ≡ lost_node draws.old.number }
    ensures number { draws.new.number ≡ draws.old.number }
    ensures drawn { draws.new.drawn ≡ 1 }
{
    draws.below(60) + 1
}

/// The node that is lost in the case of a number: `n1` to `n60`, by its number (rule of this project).
pub fn lost_node(number: u32) -> u32
    ensures { result ≡ lost_node number }
{
    draw_lost_node(&mut Draws::new(number))
}

fn push_case(text: &mut String, number: u32) -> Result<(), AllocError>
    ensures { OnOk result (string_bytes text.new ≡ string_bytes text.old ++ case_text number) }
{
    let mut draws = Draws::new(number);
    let lost = draw_lost_node(&mut draws);
    push_resources(text, &mut draws)?;
    push_rules(text, &mut draws)?;
    push_status(text)?;
    push_results(text, lost)
}

/// The case of a number, as an input of `replay` (rule of this project): nodes, primitives with drawn priorities, groups,
/// locations, colocations and orders; all nodes are online with quorum, nothing is known of any resource, and one result
/// says that a drawn node is lost. Numbers that are equal modulo 2^31 have the same case. It has less than 128 KiB.
/// `NoMemory` comes when memory runs out, and is the only other answer.
#[tactic(auto, using(crate::proofs::ShortLines::short_case))]
pub fn generate(alloc: Global, number: u32) -> Result<Vec<u8>, NoMemory>
    ensures text { IfOk result (λ text. text.items ≡ case_text number) }
    ensures short { IfOk result (λ text. length text.items < 2 ^ 17) }
{
    let mut text = String::new(alloc);
    push_case(&mut text, number)?;
    Ok(text.into_bytes())
}
