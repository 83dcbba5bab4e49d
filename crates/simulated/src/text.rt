//! The text of the run of a simulated cluster.

ghost use Rattle.std.specs.Prelude.{◌≡◌, ◌<◌, ◌^◌, ◌+◌, ℕ, IfOk, length};
ghost use Rattle.cluster_types.specs.declared.journal.Journal.{Journal as JournalOf};
ghost use Rattle.cluster_types.specs.Journals.{moment_of};
ghost use Rattle.cluster_types.specs.Safety.{IsAtRest};
ghost use Rattle.cluster_types.specs.Valid.{IsValid, KeepsLimits};
ghost use Rattle.trace_text.specs.RunLines.{HasShortNames};
ghost use Rattle.simulated.specs.KeptReality.{ShowsWorld};
ghost use Rattle.simulated.specs.RealWorlds.{RealWorld};
ghost use Rattle.simulated.specs.WorldTexts as spec;
ghost use Rattle.simulated.specs.WorldTexts.{IsLived, IsWorldText};

use crate::World;
use crate::living::{Lived, live};
use crate::real_lines::push_real_lines;
use cluster_types::{Cluster, Journal};
use faults::NoMemory;
use state_unpack::valid_clusters_have_few_monitors;
use std::alloc::Global;
use trace_text::{run_text, valid_clusters_have_short_names};

/// The last line: whether the run is over, or another transition is due.
fn ending(over: bool) -> &'static [u8]
    ensures { result.now ≡ spec.ending over }
{
    if over {
        b"ended complete\n"
    } else {
        b"ended more\n"
    }
}

/// The text of a run that a simulated cluster has lived, and of what really runs in it then.
fn text_of(
    alloc: Global,
    cluster: &Cluster,
    lived: &Lived,
    world: &World<'_>,
) -> Result<Vec<u8>, NoMemory>
    requires names { HasShortNames cluster.now }
    requires limits { KeepsLimits cluster.now }
    requires numbers { length lived.now.run.passed + 1 < 2 ^ 32 }
    requires same { world.now.reality.cluster ≡ cluster.now }
    ensures { (journal : JournalOf) (number : ℕ) (w : RealWorld) → IsLived cluster.now journal number lived.now.run lived.now.over w
        → ShowsWorld world.now.reality w → IfOk result (λ text. IsWorldText cluster.now journal number text.items) }
{
    let mut text = run_text(alloc, cluster, &lived.run)?;
    push_real_lines(&mut text, cluster, world)?;
    text.extend_from_slice(ending(lived.over))?;
    Ok(text)
}

/// The text of the run of the simulated cluster of a number, from a journal on: the lines of the run, then a line for each
/// leaf and node where the leaf really runs at its end, and a last line, which says whether the run is over or, after 1,000
/// transitions, another is due. `NoMemory` comes when memory runs out.
///
/// It asks for a valid cluster, for a journal in order with nothing in flight, as a status gives it, and for a moment in
/// seconds that fits 64 bits.
pub fn world_text(
    alloc: Global,
    cluster: &Cluster,
    journal: Journal,
    number: u32,
) -> Result<Vec<u8>, NoMemory>
    requires valid { IsValid cluster.now }
    requires at_rest { IsAtRest journal.events }
    requires moment { moment_of journal.events < 2 ^ 64 }
    ensures { IfOk result (λ text. IsWorldText cluster.now journal number text.items) }
{
    valid_clusters_have_few_monitors();
    valid_clusters_have_short_names();
    let mut world = World::new(alloc, cluster, &journal, number)?;
    let lived = live(alloc, cluster, journal, &mut world)?;
    text_of(alloc, cluster, &lived, &world)
}
