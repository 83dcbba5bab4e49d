//! The lines of the status and of the results.

ghost use Rattle.std.specs.Prelude.{◌≡◌, ◌++◌, OnOk};
ghost use Rattle.std.specs.String.{string_bytes};
ghost use Rattle.cases.specs.Case as case;

use std::alloc::AllocError;

fn push_online(text: &mut String, number: u32) -> Result<(), AllocError>
    ensures { OnOk result (string_bytes text.new ≡ string_bytes text.old ++ case.online_line number) }
{
    writeln!(text, "node n{number} online")
}

#[tactic(auto, using(crate::proofs::LineLaws::lines_begin, crate::proofs::LineLaws::lines_more))]
fn push_all_online(text: &mut String) -> Result<(), AllocError>
    ensures { OnOk result (string_bytes text.new ≡ string_bytes text.old ++ case.lines case.online_line 1 61) }
{
    for number in 1..=60 {
        push_online(text, number)?;
    }
    Ok(())
}

/// The partition has quorum, and each node is online.
pub(crate) fn push_status(text: &mut String) -> Result<(), AllocError>
    ensures { OnOk result (string_bytes text.new ≡ string_bytes text.old ++ case.status_text) }
{
    text.push_str("%status\nnow 1000\nquorum yes\n")?;
    push_all_online(text)
}

/// One result: the node of this number is lost.
pub(crate) fn push_results(text: &mut String, lost: u32) -> Result<(), AllocError>
    ensures { OnOk result (string_bytes text.new ≡ string_bytes text.old ++ case.results_text lost) }
{
    write!(text, "%results\nlost n{lost}\n")
}
