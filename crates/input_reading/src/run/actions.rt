//! What an action does, by the words at the end of a line.

ghost use Rattle.std.specs.Prelude.{◌≡◌};
ghost use Rattle.cluster_types.specs.AnswersThatApply.{monitor_action};
ghost use Rattle.input_reading.specs.RunReading.{action_as, fence_at_end, migrate_from_at_end, migrate_to_at_end, monitor_at_end, operation_at_end, probe_at_end};

use crate::run::words::ActionWord;
use crate::{WordCause, Words, end_at, leaf_at, node_at, number_at};
use cluster_types::{Action, LeafId, NodeId, Op, Role};
use names::Names;

#[tactic(auto, unfolding(crate::specs::RunReading::fence_at_end))]
fn fence_at_end<W: Words>(names: &Names<'_>, words: &W) -> Result<Action, WordCause>
    ensures { result ≡ fence_at_end names.now (W.words words.now) }
{
    let node = node_at(names, 3, words)?;
    end_at(4, words)?;
    Ok(Action::Fence { node })
}

#[tactic(auto, unfolding(crate::specs::RunReading::probe_at_end))]
fn probe_at_end<W: Words>(names: &Names<'_>, words: &W) -> Result<Action, WordCause>
    ensures { result ≡ probe_at_end names.now (W.words words.now) }
{
    let leaf = leaf_at(names, 3, words)?;
    let node = node_at(names, 4, words)?;
    end_at(5, words)?;
    Ok(Action::Probe { leaf, node })
}

/// The leaf's monitor of the interval on the node. Its role is that of the interval's statement.
fn monitor_action(names: &Names<'_>, leaf: LeafId, node: NodeId, interval_ms: u32) -> Action
    ensures { result ≡ monitor_action names.now leaf node interval_ms }
{
    Action::Operation {
        op: Op::Monitor,
        leaf,
        node,
        interval_ms,
        role: names.cluster().role_of_interval(leaf, interval_ms),
    }
}

#[tactic(auto, unfolding(crate::specs::RunReading::monitor_at_end))]
fn monitor_at_end<W: Words>(names: &Names<'_>, words: &W) -> Result<Action, WordCause>
    ensures { result ≡ monitor_at_end names.now (W.words words.now) }
{
    let leaf = leaf_at(names, 3, words)?;
    let node = node_at(names, 4, words)?;
    let interval_ms = number_at(5, words)?;
    end_at(6, words)?;
    Ok(monitor_action(names, leaf, node, interval_ms))
}

#[tactic(auto, unfolding(crate::specs::RunReading::operation_at_end))]
fn operation_at_end<W: Words>(names: &Names<'_>, op: Op, words: &W) -> Result<Action, WordCause>
    ensures { result ≡ operation_at_end names.now op (W.words words.now) }
{
    let leaf = leaf_at(names, 3, words)?;
    let node = node_at(names, 4, words)?;
    end_at(5, words)?;
    Ok(Action::Operation {
        op,
        leaf,
        node,
        interval_ms: 0,
        role: Role::Started,
    })
}

#[tactic(auto, unfolding(crate::specs::RunReading::migrate_to_at_end))]
fn migrate_to_at_end<W: Words>(names: &Names<'_>, words: &W) -> Result<Action, WordCause>
    ensures { result ≡ migrate_to_at_end names.now (W.words words.now) }
{
    let leaf = leaf_at(names, 3, words)?;
    let source = node_at(names, 4, words)?;
    let target = node_at(names, 5, words)?;
    end_at(6, words)?;
    Ok(Action::MigrateTo {
        leaf,
        source,
        target,
    })
}

#[tactic(auto, unfolding(crate::specs::RunReading::migrate_from_at_end))]
fn migrate_from_at_end<W: Words>(names: &Names<'_>, words: &W) -> Result<Action, WordCause>
    ensures { result ≡ migrate_from_at_end names.now (W.words words.now) }
{
    let leaf = leaf_at(names, 3, words)?;
    let source = node_at(names, 4, words)?;
    let target = node_at(names, 5, words)?;
    end_at(6, words)?;
    Ok(Action::MigrateFrom {
        leaf,
        source,
        target,
    })
}

/// The action of a form, from its leaf and nodes on to the end of the line.
pub(crate) fn action_as<W: Words>(
    names: &Names<'_>,
    form: ActionWord,
    words: &W,
) -> Result<Action, WordCause>
    ensures { result ≡ action_as names.now form (W.words words.now) }
{
    match form {
        ActionWord::Fence => fence_at_end(names, words),
        ActionWord::Probe => probe_at_end(names, words),
        ActionWord::Operation(op) => operation_at_end(names, op, words),
        ActionWord::Monitor => monitor_at_end(names, words),
        ActionWord::MigrateTo => migrate_to_at_end(names, words),
        ActionWord::MigrateFrom => migrate_from_at_end(names, words),
    }
}
