//! The word `survive`: where everything goes when a node is lost, for each node that is online.

ghost use Rattle.sim_core.specs.Survive.{IsSurviveText};

use crate::text_word::TextWord;
use faults::NoMemory;
use input_reading::Input;
use planner::survive;
use std::alloc::Global;
use trace_text::survive_text;

/// The word `survive`.
#[derive(Drop)]
pub(crate) struct SurviveWord;

impl TextWord for SurviveWord {
    ghost says = { λ _. IsSurviveText };

    fn text(&self, alloc: Global, input: Input) -> Result<Vec<u8>, NoMemory> {
        let head = &input.head;
        let report = survive(alloc, &head.cluster, &head.journal)?;
        Ok(survive_text(alloc, &head.cluster, &report)?)
    }
}
