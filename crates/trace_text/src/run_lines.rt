//! The lines of a run.

ghost use Rattle.std.specs.Prelude.{◌≡◌, ◌<◌, ◌≤◌, ◌++◌, codes, decimal, length, OnOk};
ghost use Rattle.cluster_types.specs.Fields.{leaf_name};
ghost use Rattle.cluster_types.specs.declared.run.RunLine.TheVariants as line;
ghost use Rattle.cluster_types.specs.Texts as texts;
ghost use Rattle.trace_text.specs.RunLines.{HasNamedRule, HasShortNames, lent_line};

use crate::line_buf::LineBuf;
use crate::line_text::LineText;
use crate::names::{node_name, put_leaf, put_node, put_on};
use crate::numbers::{put_number, put_number_line, put_numbered};
use crate::run_line_ref::RunLineRef;
use cluster_types::{Action, Answer, Cluster, LeafId, NoReason, NodeId, Op, Pin, Target};

/// The word of an operation, with a space behind it.
fn op_word(op: Op) -> &'static [u8]
    ensures { result.now ≡ texts.op_word op }
{
    match op {
        Op::Start => b"start ",
        Op::Stop => b"stop ",
        Op::Promote => b"promote ",
        Op::Demote => b"demote ",
        Op::Monitor => b"monitor ",
    }
}

/// A word, the leaf on the node, and where it is moved to or from.
fn put_move<T: LineText>(
    text: &mut T,
    cluster: &Cluster,
    word: &[u8],
    leaf: LeafId,
    source: NodeId,
    target: NodeId,
) -> Result<(), T::Error>
    ensures { OnOk result (T.kept text.new ≡ T.more (T.kept text.old)
        (word.now ++ texts.leaf_on cluster.now leaf source ++ codes " " ++ texts.node_name cluster.now target)) }
{
    put_on(text, cluster, word, leaf, source)?;
    text.put(b" ")?;
    text.put(node_name(cluster, target as usize))
}

/// What a monitor is, with its interval in milliseconds behind it.
fn put_monitor<T: LineText>(
    text: &mut T,
    cluster: &Cluster,
    leaf: LeafId,
    node: NodeId,
    interval_ms: u32,
) -> Result<(), T::Error>
    ensures { OnOk result (T.kept text.new ≡ T.more (T.kept text.old)
        (codes "monitor " ++ texts.leaf_on cluster.now leaf node ++ codes " " ++ decimal interval_ms)) }
{
    put_on(text, cluster, b"monitor ", leaf, node)?;
    text.put(b" ")?;
    put_number(text, interval_ms as u64)
}

/// What an action does: its word, its leaf and its nodes. A monitor has its interval behind them.
pub(crate) fn put_action<T: LineText>(
    text: &mut T,
    cluster: &Cluster,
    action: Action,
) -> Result<(), T::Error>
    ensures { OnOk result (T.kept text.new ≡ T.more (T.kept text.old) (texts.action_text cluster.now action)) }
{
    match action {
        Action::Fence { node } => put_node(text, cluster, b"fence ", node),
        Action::Probe { leaf, node } => put_on(text, cluster, b"probe ", leaf, node),
        Action::Operation {
            op: Op::Monitor,
            leaf,
            node,
            interval_ms,
            ..
        } => put_monitor(text, cluster, leaf, node, interval_ms),
        Action::Operation { op, leaf, node, .. } => put_on(text, cluster, op_word(op), leaf, node),
        Action::MigrateTo {
            leaf,
            source,
            target,
        } => put_move(text, cluster, b"migrate_to ", leaf, source, target),
        Action::MigrateFrom {
            leaf,
            source,
            target,
        } => put_move(text, cluster, b"migrate_from ", leaf, source, target),
    }
}

/// An action has ended with the code.
fn put_end<T: LineText>(text: &mut T, number: u32, code: u8) -> Result<(), T::Error>
    ensures { OnOk result (T.kept text.new
        ≡ T.more (T.kept text.old) (codes "end " ++ decimal number ++ codes " " ++ decimal code)) }
{
    put_numbered(text, b"end ", number as u64)?;
    text.put(b" ")?;
    put_number(text, code as u64)
}

/// What a recurring monitor has found.
fn put_report<T: LineText>(
    text: &mut T,
    cluster: &Cluster,
    node: NodeId,
    leaf: LeafId,
    interval_ms: u32,
    code: u8,
) -> Result<(), T::Error>
    ensures { OnOk result (T.kept text.new ≡ T.more (T.kept text.old)
        (codes "report " ++ texts.node_name cluster.now node ++ codes " " ++ leaf_name cluster.now leaf
        ++ codes " " ++ decimal interval_ms ++ codes " " ++ decimal code)) }
{
    put_node(text, cluster, b"report ", node)?;
    text.put(b" ")?;
    text.put(cluster.leaf_name(leaf))?;
    text.put(b" ")?;
    put_number(text, interval_ms as u64)?;
    text.put(b" ")?;
    put_number(text, code as u64)
}

/// An answer, as a result line says it.
fn put_answer<T: LineText>(text: &mut T, cluster: &Cluster, answer: Answer) -> Result<(), T::Error>
    ensures { OnOk result (T.kept text.new ≡ T.more (T.kept text.old) (texts.answer_text cluster.now answer)) }
{
    match answer {
        Answer::End { number, code } => put_end(text, number, code),
        Answer::Timeout { number } => put_numbered(text, b"timeout ", number as u64),
        Answer::Lost { node } => put_node(text, cluster, b"lost ", node),
        Answer::Up { node } => put_node(text, cluster, b"up ", node),
        Answer::Quorum { yes: true } => text.put(b"quorum yes"),
        Answer::Quorum { yes: false } => text.put(b"quorum no"),
        Answer::Wait { seconds } => put_numbered(text, b"wait ", seconds),
        Answer::Report {
            node,
            leaf,
            interval_ms,
            code,
        } => put_report(text, cluster, node, leaf, interval_ms, code),
    }
}

/// Why a leaf is left as it is.
fn put_pinned<T: LineText>(
    text: &mut T,
    cluster: &Cluster,
    leaf: LeafId,
    pin: Pin,
) -> Result<(), T::Error>
    ensures { OnOk result (T.kept text.new ≡ T.more (T.kept text.old) (texts.run_line cluster.now (line.Pinned leaf pin))) }
{
    put_leaf(text, cluster, b"pinned ", leaf)?;
    text.put(b" ")?;
    let word: &[u8] = match pin {
        Pin::Unmanaged => b"unmanaged",
        Pin::Blocked => b"blocked",
    };
    text.put(word)?;
    text.put(b"\n")
}

/// Where a leaf goes.
fn put_goal<T: LineText>(
    text: &mut T,
    cluster: &Cluster,
    leaf: LeafId,
    node: NodeId,
    target: Target,
) -> Result<(), T::Error>
    ensures { OnOk result (T.kept text.new ≡ T.more (T.kept text.old) (texts.run_line cluster.now (line.Goal leaf node target))) }
{
    put_on(text, cluster, b"target ", leaf, node)?;
    text.put(b" ")?;
    let word: &[u8] = match target {
        Target::Nowhere => b"nowhere",
        Target::Started => b"started",
        Target::Promoted => b"promoted",
    };
    text.put(word)?;
    text.put(b"\n")
}

/// A reason why a leaf has no target.
fn put_reason<T: LineText>(
    text: &mut T,
    cluster: &Cluster,
    reason: &NoReason,
) -> Result<(), T::Error>
    ensures { OnOk result (T.kept text.new ≡ T.more (T.kept text.old) (texts.reason_text cluster.now reason.now)) }
{
    match reason {
        NoReason::NoCopies => text.put(b"NoCopies"),
        NoReason::Stopped => text.put(b"Stopped"),
        NoReason::OnFail => text.put(b"OnFail"),
        NoReason::StopAll => text.put(b"StopAll"),
        NoReason::NoQuorum => text.put(b"NoQuorum"),
        NoReason::NoNode => text.put(b"NoNode"),
        NoReason::Held(id) => {
            text.put(b"Held ")?;
            text.put(id.bytes())
        }
    }
}

/// Why a leaf has no target.
fn put_lacking<T: LineText>(
    text: &mut T,
    cluster: &Cluster,
    leaf: LeafId,
    reason: &NoReason,
) -> Result<(), T::Error>
    ensures { OnOk result (T.kept text.new ≡ T.more (T.kept text.old) (texts.run_line cluster.now (line.Lacking leaf reason.now))) }
{
    put_leaf(text, cluster, b"none ", leaf)?;
    text.put(b" ")?;
    put_reason(text, cluster, reason)?;
    text.put(b"\n")
}

/// An action begins.
fn put_begin<T: LineText>(
    text: &mut T,
    cluster: &Cluster,
    number: u32,
    action: Action,
) -> Result<(), T::Error>
    ensures { OnOk result (T.kept text.new ≡ T.more (T.kept text.old) (texts.run_line cluster.now (line.Begin number action))) }
{
    put_numbered(text, b"begin ", number as u64)?;
    text.put(b" ")?;
    put_action(text, cluster, action)?;
    text.put(b"\n")
}

/// An answer that was taken.
fn put_taken<T: LineText>(text: &mut T, cluster: &Cluster, answer: Answer) -> Result<(), T::Error>
    ensures { OnOk result (T.kept text.new ≡ T.more (T.kept text.old) (texts.run_line cluster.now (line.Taken answer))) }
{
    put_answer(text, cluster, answer)?;
    text.put(b"\n")
}

/// The line of a run, with its line feed.
pub(crate) fn put_line<T: LineText>(
    text: &mut T,
    cluster: &Cluster,
    line: &RunLineRef<'_>,
) -> Result<(), T::Error>
    ensures { OnOk result (T.kept text.new ≡ T.more (T.kept text.old) (texts.run_line cluster.now (lent_line line.now))) }
{
    match *line {
        RunLineRef::Transition(number) => put_number_line(text, b"transition ", number),
        RunLineRef::Pinned(leaf, pin) => put_pinned(text, cluster, leaf, pin),
        RunLineRef::Goal(leaf, node, target) => put_goal(text, cluster, leaf, node, target),
        RunLineRef::Lacking(leaf, reason) => put_lacking(text, cluster, leaf, reason),
        RunLineRef::Begin(number, action) => put_begin(text, cluster, number, action),
        RunLineRef::Taken(answer) => put_taken(text, cluster, answer),
        RunLineRef::Complete(number) => put_number_line(text, b"complete ", number),
        RunLineRef::Aborted(number) => put_number_line(text, b"aborted ", number),
        RunLineRef::Unexpected(number) => put_number_line(text, b"unexpected ", number),
    }
}

/// Writes the line of a run, with its line feed, in place of what the buffer has. A line has fewer than 1,024 bytes. It
/// takes no memory.
///
/// It asks for names of at most 256 bytes, as a valid cluster has (`valid_clusters_have_short_names`), and that the id
/// of a rule that holds a leaf back is a name (`reasons_with_names_are_named`). A leaf or node that the cluster doesn't
/// have is written as an empty name. Rule of this project.
pub fn write_line(cluster: &Cluster, line: &RunLineRef<'_>, text: &mut LineBuf)
    requires names { HasShortNames cluster.now }
    requires reason { HasNamedRule line.now }
    ensures text { text.new ≡ texts.run_line cluster.now (lent_line line.now) }
    ensures size { length text.new < 1024 }
{
    text.clear();
    let Ok(()) = put_line(text, cluster, line);
}

/// `refused LINE CAUSE`, with its line feed.
fn put_refusal<T: LineText>(text: &mut T, line: u32, cause: &str) -> Result<(), T::Error>
    ensures { OnOk result (T.kept text.new ≡ T.more (T.kept text.old)
        (codes "refused " ++ decimal line ++ codes " " ++ cause.now ++ codes "\n")) }
{
    put_numbered(text, b"refused ", line as u64)?;
    text.put(b" ")?;
    text.put(cause.as_bytes())?;
    text.put(b"\n")
}

/// Writes `refused LINE CAUSE`, with its line feed, in place of what the buffer has: the last line of a run that asks for a
/// line which isn't read. The line has fewer than 1,024 bytes. It takes no memory. It asks for the name of a cause of at
/// most 100 bytes. Rule of this project.
pub fn write_refusal(line: u32, cause: &str, text: &mut LineBuf)
    requires { length cause.now ≤ 100 }
    ensures text { text.new ≡ codes "refused " ++ decimal line ++ codes " " ++ cause.now ++ codes "\n" }
    ensures size { length text.new < 1024 }
{
    text.clear();
    let Ok(()) = put_refusal(text, line, cause);
}
