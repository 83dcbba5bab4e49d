//! The word `world`: the run in a simulated cluster, and what really runs at its end.

ghost use Rattle.sim_core.specs.World.{IsWorldOf};

use crate::text_word::TextWord;
use faults::NoMemory;
use input_reading::Input;
use simulated::world_text;
use std::alloc::Global;

/// The word `world`, with the number of a simulated cluster. The results of an input aren't used.
#[derive(Drop)]
pub(crate) struct WorldWord(pub u32);

impl TextWord for WorldWord {
    ghost says = { λ word. IsWorldOf word.0 };

    fn text(&self, alloc: Global, input: Input) -> Result<Vec<u8>, NoMemory> {
        let Input { head, results: _ } = input;
        let journal = head.journal;
        world_text(alloc, &head.cluster, journal, self.0)
    }
}
