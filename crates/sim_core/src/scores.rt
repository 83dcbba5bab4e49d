//! The word `scores`: the totals, the targets and the reasons of an input.

ghost use Rattle.std.specs.Prelude.{◌≡◌, ◌^◌, ◌<◌, IfOk};
ghost use Rattle.cluster_types.specs.Journals.{moment_of};
ghost use Rattle.cluster_types.specs.Plans.{IsPlaced};
ghost use Rattle.cluster_types.specs.Valid.{IsValid};
ghost use Rattle.sim_core.specs.Scores.{IsScoresText};

use crate::text_word::TextWord;
use cluster_types::Placed;
use faults::NoMemory;
use input_reading::{Head, Input};
use placement::placement_of;
use state_unpack::{unpack, valid_clusters_have_few_monitors};
use std::alloc::Global;
use trace_text::score_text;

/// Where everything goes, as the head tells it.
fn placed(alloc: Global, head: &Head) -> Result<Placed, NoMemory>
    requires valid { IsValid head.now.cluster }
    requires moment { moment_of head.now.journal.events < 2 ^ 40 }
    ensures { IfOk result (λ placed. IsPlaced head.now.cluster head.now.journal.events head.now.journal.promotions placed) }
{
    valid_clusters_have_few_monitors();
    let states = unpack(alloc, &head.cluster, &head.journal)?;
    placement_of(alloc, &head.cluster, &states)
}

/// The word `scores`.
#[derive(Drop)]
pub(crate) struct ScoresWord;

impl TextWord for ScoresWord {
    ghost says = { λ _. IsScoresText };

    fn text(&self, alloc: Global, input: Input) -> Result<Vec<u8>, NoMemory> {
        let placed = placed(alloc, &input.head)?;
        score_text(alloc, &input.head.cluster, &placed)
    }
}
