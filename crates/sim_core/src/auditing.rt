//! Whether the lines of a written run are those of the run of their own answers.

ghost use Rattle.std.specs.Prelude.{◌≡◌, ◌+◌, ◌<◌, ◌^◌, IfOk, length};
ghost use Rattle.cluster_types.specs.Journals.{moment_of};
ghost use Rattle.cluster_types.specs.Safety.{IsAtRest};
ghost use Rattle.cluster_types.specs.Valid.{IsValid};
ghost use Rattle.sim_core.specs.LawfulRuns.{Judges};

use crate::answers::answers_in;
use crate::auditor::Auditor;
use crate::verdict::Verdict;
use cluster_types::{Cluster, Journal, NoMemory};
use graph_exec::{ReplayStop, Script, replay_watched};
use input_reading::RunText;
use run_safety::enough_transitions_are_allowed;
use std::alloc::Global;

/// Audits a written run from a journal on: whether its lines are those of the whole run of its own answers. If not, the verdict names the first
/// line that isn't the due one, and what is due there; where the lines end too early, `after` stands for its number.
///
/// It asks for a valid cluster, for a journal in order with nothing in flight, as a status gives it, for a moment in seconds that fits 64
/// bits, and for fewer than 4,294,967,295 lines. The only error is out of memory. Rule of this project.
pub fn audit(
    alloc: Global,
    cluster: &Cluster,
    journal: Journal,
    run: &RunText,
    after: u32,
) -> Result<Verdict, NoMemory>
    requires valid { IsValid cluster.now }
    requires at_rest { IsAtRest journal.events }
    requires moment { moment_of journal.events < 2 ^ 64 }
    requires few { length run.now.lines + 1 < 2 ^ 32 }
    ensures { IfOk result (Judges cluster.now journal run.now.lines after) }
{
    enough_transitions_are_allowed();
    let lines = run.lines.as_slice();
    let answers = answers_in(alloc, lines)?;
    let most = answers.len() as u32 + 1;
    let mut script = Script::new(answers);
    let mut auditor = Auditor::over(cluster, lines);
    // An arm with a journal drops it by name: left to the arm's end, that takes the checker twice as long.
    match replay_watched(alloc, cluster, journal, &mut script, &mut auditor, most) {
        Ok(journal) => {
            drop(journal);
            Ok(auditor.over_then(after))
        }
        Err(ReplayStop::Unexpected(journal, _)) => {
            drop(journal);
            Ok(auditor.undue(after))
        }
        Err(ReplayStop::Stopped(journal)) => {
            drop(journal);
            Ok(auditor.other_due(after))
        }
        Err(ReplayStop::NoMemory) => Err(NoMemory),
        Err(ReplayStop::SourceFault(_) | ReplayStop::Most(_)) => unreachable!(),
    }
}
