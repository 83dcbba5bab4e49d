ghost use Rattle.std.specs.Prelude.{◌≡◌, ◌↔◌, ◌≤◌, ◌<◌, ◌-◌, ◌++◌, ◌∷◌, ◌==◌, [], ℕ, List, true, false, if◌then◌else◌, IfOk, OnOk, count_by, slice_index_or, slice_set};
ghost use Rattle.edges.specs.declared.edge.Edge.{Edge};
ghost use Rattle.edges.specs.Loops.{EndsWithin, HasNoLoop, HasLoop};
ghost use Rattle.edges.specs.Inner.Clearing.{Clears, cleared_then, AreCleared};
ghost use Rattle.edges.specs.Rows.{less_one};

use crate::edge::Edge;
use crate::side::count_off;
use crate::sources::{leaving, sources, unused};
use std::alloc::{AllocError, Global};

/// Which positions are clear: each edge from them leads to one that was taken.
#[derive(Drop)]
struct Clearing {
    /// Of each position, how many edges lead from it to positions that weren't taken.
    waiting: Vec<usize>,
    /// The clear positions, each behind those to which its edges lead.
    cleared: Vec<u32>,
}

impl Clearing {
    /// The positions from which no edge leads are clear.
    fn new(alloc: Global, positions: u32, edges: &[Edge]) -> Result<Clearing, AllocError>
        requires { EndsWithin positions edges.now }
        ensures { IfOk result (λ c. Clears positions edges.now 0 [] c.waiting.items c.cleared.items) }
    {
        let waiting = leaving(alloc, positions, edges)?;
        let cleared = unused(alloc, positions, &waiting)?;
        Ok(Clearing { waiting, cleared })
    }

    /// Counts off an edge from the position. With no edge left it is clear.
    fn count_off(&mut self, source: u32) -> Result<(), AllocError>
        requires { 0 < slice_index_or self.old.waiting.items source 0 }
        ensures waiting { OnOk result (self.new.waiting.items ≡ less_one self.old.waiting.items source) }
        ensures cleared { OnOk result (self.new.cleared.items ≡ cleared_then self.old.waiting.items self.old.cleared.items source) }
    {
        if count_off(&mut self.waiting, source) {
            self.cleared.push(source)?;
        }
        Ok(())
    }

    /// Counts off an edge from each of these positions.
    fn count_off_all(&mut self, sources: &[u32]) -> Result<(), AllocError>
        requires { (x : ℕ) → count_by (◌==◌ x) sources.now ≤ slice_index_or self.old.waiting.items x 0 }
        ensures { OnOk result ((positions taken : ℕ) (edges : List Edge)
            → Clears positions edges taken sources.now self.old.waiting.items self.old.cleared.items
            → Clears positions edges taken [] self.new.waiting.items self.new.cleared.items) }
    {
        for source in sources {
            self.count_off(*source)?;
        }
        Ok(())
    }
}

/// The positions that can be taken one after the other, each once all to which its edges lead were taken.
///
/// All can be taken when there is no loop, and only then. The time is linear in the positions and the edges.
pub fn backward_order(alloc: Global, positions: u32, edges: &[Edge]) -> Result<Vec<u32>, AllocError>
    requires { EndsWithin positions edges.now }
    ensures { IfOk result (λ order. AreCleared positions edges.now order.items) }
{
    let sources = sources(alloc, positions, edges)?;
    let mut clearing = Clearing::new(alloc, positions, edges)?;
    let mut taken = 0;
    while taken < clearing.cleared.len() {
        let position = clearing.cleared[taken];
        clearing.count_off_all(sources[position as usize].as_slice())?;
        taken += 1;
    }
    let Clearing { cleared, .. } = clearing;
    Ok(cleared)
}

/// Whether no edges lead from a position back to it.
///
/// Both ends of each edge are positions. The time is linear in the positions and the edges.
pub fn is_loop_free(alloc: Global, positions: u32, edges: &[Edge]) -> Result<bool, AllocError>
    requires { EndsWithin positions edges.now }
    ensures free { IfOk result (λ free. free ≡ true ↔ HasNoLoop edges.now) }
    ensures loops { IfOk result (λ free. free ≡ false ↔ HasLoop edges.now) }
{
    let order = backward_order(alloc, positions, edges)?;
    Ok(order.len() >= positions as usize)
}
