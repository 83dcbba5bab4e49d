//! The word `graph`: the actions that an input needs, and what must precede each.

ghost use Rattle.std.specs.Prelude.{◌≡◌, IfOk};
ghost use Rattle.cluster_types.specs.Graphs.{is_before};
ghost use Rattle.sim_core.specs.Graph.{IsGraphText};
ghost use Rattle.cluster_types.specs.Texts as texts;

use crate::text_word::TextWord;
use cluster_types::{Cluster, Plan};
use faults::NoMemory;
use input_reading::Input;
use planner::plan;
use std::alloc::Global;
use trace_text::graph_text;

/// The text of a plan's graph.
fn text_of(alloc: Global, cluster: &Cluster, plan: Plan) -> Result<Vec<u8>, NoMemory>
    ensures { IfOk result (λ text. text.items ≡ texts.graph_text cluster.now plan.graph.actions (is_before plan.graph)) }
{
    graph_text(alloc, cluster, &plan.graph)
}

/// The word `graph`.
#[derive(Drop)]
pub(crate) struct GraphWord;

impl TextWord for GraphWord {
    ghost says = { λ _. IsGraphText };

    fn text(&self, alloc: Global, input: Input) -> Result<Vec<u8>, NoMemory> {
        let head = &input.head;
        let plan = plan(alloc, &head.cluster, &head.journal)?;
        Ok(text_of(alloc, &head.cluster, plan)?)
    }
}
