//! The answers among the lines of a written run.

ghost use Rattle.std.specs.Prelude.{◌≡◌, ◌≤◌, ◌++◌, length, OnOk, IfOk};
ghost use Rattle.std.specs.List.{flat_map};
ghost use Rattle.sim_core.specs.LawfulRuns.{answer_in};

use cluster_types::{Answer, RunLine};
use input_reading::RunTextLine;
use std::alloc::{AllocError, Global};

/// Adds the answer of a line, if it has one.
fn add_answer(answers: &mut Vec<Answer>, line: &RunTextLine) -> Result<(), AllocError>
    ensures { OnOk result (answers.new.items ≡ answers.old.items ++ answer_in line.now.what) }
{
    match &line.what {
        RunLine::Taken(answer) => Ok(answers.push(*answer)?),
        _ => Ok(()),
    }
}

/// Adds the answers among these lines.
#[tactic(auto, using(lemmas::proofs::Grown::elements_more))]
fn add_answers(answers: &mut Vec<Answer>, lines: &[RunTextLine]) -> Result<(), AllocError>
    ensures { OnOk result (answers.new.items ≡ answers.old.items ++ flat_map (λ l. answer_in l.what) lines.now) }
{
    for line in lines {
        add_answer(answers, line)?;
    }
    Ok(())
}

/// The answers among these lines, in their order.
#[tactic(auto, using(crate::proofs::FewLines::few_answers))]
pub(crate) fn answers_in(alloc: Global, lines: &[RunTextLine]) -> Result<Vec<Answer>, AllocError>
    ensures answers { IfOk result (λ answers. answers.items ≡ flat_map (λ l. answer_in l.what) lines.now) }
    ensures few { IfOk result (λ answers. length answers.items ≤ length lines.now) }
{
    let mut answers = Vec::new(alloc);
    add_answers(&mut answers, lines)?;
    Ok(answers)
}
