//! The text of the summary.

ghost use Rattle.std.specs.Prelude.{◌≡◌, ◌++◌, codes, decimal, IfOk, OnOk};
ghost use Rattle.std.specs.List.{AllByRecursion};
ghost use Rattle.std.specs.String.{string_bytes};
ghost use Rattle.cases.specs.Case.{lost_node};
ghost use Rattle.cluster_types.specs.Texts.{PassedFits};
ghost use Rattle.sim_core.specs.Summary as summary;

use crate::counts::{count_begun, count_succeeded, last_targets};
use cases::lost_node;
use cluster_types::{Cluster, Run};
use faults::NoMemory;
use std::alloc::{AllocError, Global};

/// A word and a number.
fn push_count(text: &mut String, word: &str, count: usize) -> Result<(), AllocError>
    ensures { OnOk result (string_bytes text.new ≡ string_bytes text.old ++ summary.count_line word.now count) }
{
    writeln!(text, "{word} {count}")
}

fn push_lost(text: &mut String, number: u32) -> Result<(), AllocError>
    ensures { OnOk result (string_bytes text.new
        ≡ string_bytes text.old ++ (codes "lost n" ++ decimal (lost_node number) ++ codes "\n")) }
{
    let lost = lost_node(number);
    writeln!(text, "lost n{lost}")
}

/// The case of a number.
fn push_case(text: &mut String, cluster: &Cluster, number: u32) -> Result<(), AllocError>
    ensures { OnOk result (string_bytes text.new ≡ string_bytes text.old ++ summary.case_lines cluster.now number) }
{
    push_count(text, "gen", number as usize)?;
    push_lost(text, number)?;
    push_count(text, "nodes", cluster.nodes.len())?;
    push_count(text, "leaves", cluster.leaves.len())
}

/// Its run, with so many cells that have a target at last.
fn push_run(
    text: &mut String,
    cluster: &Cluster,
    run: &Run,
    targets: usize,
) -> Result<(), AllocError>
    requires { targets ≡ summary.last_targets cluster.now run.now.passed }
    ensures { OnOk result (string_bytes text.new ≡ string_bytes text.old ++ summary.summary_lines cluster.now run.now) }
{
    let events = run.journal.events.as_slice();
    push_count(text, "transitions", run.passed.len())?;
    push_count(text, "begun", count_begun(events))?;
    push_count(text, "succeeded", count_succeeded(cluster, events))?;
    push_count(text, "targets", targets)
}

/// The summary of the run of the case of a number, with the cluster that the case says (rule of this project): the
/// number, the node that is lost, how many nodes and leaves there are, how many transitions the run has, how many actions
/// began in it, how many ended with a success, and how many cells have a target in its last transition. It asks for
/// transitions that fit the cluster. `NoMemory` comes when memory runs out, and is the only other answer.
pub fn summary_text(
    alloc: Global,
    cluster: &Cluster,
    number: u32,
    run: &Run,
) -> Result<Vec<u8>, NoMemory>
    requires { AllByRecursion (PassedFits cluster.now run.now.journal.events) run.now.passed }
    ensures { IfOk result (λ text. text.items ≡ summary.summary_text cluster.now number run.now) }
{
    let mut text = String::new(alloc);
    push_case(&mut text, cluster, number)?;
    let targets = last_targets(run.passed.as_slice());
    push_run(&mut text, cluster, run, targets)?;
    Ok(text.into_bytes())
}
