//! The word `why`: how the decisions of the placement of an input came about.

ghost use Rattle.std.specs.Prelude.{◌≡◌, ◌^◌, ◌<◌, IfOk};
ghost use Rattle.cluster_types.specs.Journals.{moment_of};
ghost use Rattle.cluster_types.specs.Valid.{IsValid};
ghost use Rattle.sim_core.specs.Why.{IsWhyOf};

use crate::text_word::TextWord;
use account_text::why_text;
use faults::NoMemory;
use input_reading::Input;
use placement::{place, rows};
use state_unpack::{unpack, valid_clusters_have_few_monitors};
use std::alloc::Global;

/// The text of how the decisions came about, as the head tells it.
fn account(alloc: Global, input: &Input) -> Result<Vec<u8>, NoMemory>
    requires valid { IsValid input.now.head.cluster }
    requires moment { moment_of input.now.head.journal.events < 2 ^ 40 }
    ensures { IfOk result (λ text. IsWhyOf input.now text.items) }
{
    let head = &input.head;
    valid_clusters_have_few_monitors();
    let states = unpack(alloc, &head.cluster, &head.journal)?;
    let scores = rows(alloc, &head.cluster, &states)?;
    let placed = place(alloc, &head.cluster, &states, &scores)?;
    why_text(alloc, &head.cluster, &states, &scores, &placed)
}

/// The word `why`.
#[derive(Drop)]
pub(crate) struct WhyWord;

impl TextWord for WhyWord {
    ghost says = { λ _. IsWhyOf };

    fn text(&self, alloc: Global, input: Input) -> Result<Vec<u8>, NoMemory> {
        account(alloc, &input)
    }
}
