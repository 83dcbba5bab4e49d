//! The text of what the loss of each node does.

ghost use Rattle.std.specs.Prelude.{◌≡◌, ◌++◌, IfOk, OnOk};
ghost use Rattle.cluster_types.specs.Valid.{KeepsLimits};
ghost use Rattle.trace_text.specs.Losses as losses;

use crate::line_text::LineText;
use crate::names::put_node;
use crate::target_walk::push_targets;
use cluster_types::{Cluster, Loss, Report};
use faults::NoMemory;
use std::alloc::Global;

/// The node that is lost, and the target lines then.
fn push_loss(text: &mut Vec<u8>, cluster: &Cluster, loss: &Loss) -> Result<(), NoMemory>
    requires { KeepsLimits cluster.now }
    ensures { OnOk result (text.new.items ≡ text.old.items ++ losses.loss_lines cluster.now loss.now) }
{
    put_node(text, cluster, b"loss ", loss.node)?;
    text.put(b"\n")?;
    push_targets(
        text,
        cluster,
        loss.pins.as_slice(),
        &loss.table,
        loss.none.as_slice(),
    )
}

/// The text of what the loss of each node does: of each node that may be lost, its line and then the target lines (rule of this project). It asks for
/// a cluster within the limits. `NoMemory` comes when memory runs out.
pub fn survive_text(alloc: Global, cluster: &Cluster, report: &Report) -> Result<Vec<u8>, NoMemory>
    requires limits { KeepsLimits cluster.now }
    ensures { IfOk result (λ text. text.items ≡ losses.survive_text cluster.now report.now) }
{
    let mut text = Vec::new(alloc);
    for loss in report.losses.as_slice() {
        push_loss(&mut text, cluster, loss)?;
    }
    Ok(text)
}
