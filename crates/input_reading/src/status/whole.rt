//! The status section of a text.

ghost use Rattle.std.specs.Prelude.{◌≡◌, ◌<◌, ◌^◌, ◌++◌, ◌∷◌, AllPairs, [], false, length, true, IfOk, Ok};
ghost use Rattle.std.specs.List.{list_all};
ghost use Rattle.cluster_types.specs.declared.journal.Promotion.{Promotion as PromotionOf};
ghost use Rattle.cluster_types.specs.Journals.{Orderly, in_flight_by_begin, moment_of};
ghost use Rattle.faults.specs.Reading.{Gives};
ghost use Rattle.input_reading.specs.FirstJournal.{is_repeated, is_promotion_of_same_cell, journal_of, status_journal, with_status_line, with_status_lines};
ghost use Rattle.input_reading.specs.Inner.FirstJournal.{all_differ, is_known};
ghost use Rattle.input_reading.specs.Grammar.LinesSaid.{AsLinesSay, IsStatusRefused, StatusIsSaid};

use crate::status::first_journal::journal_of;
use crate::status::line_meaning::Fact;
use crate::status::status_lines::told_of;
use crate::status::told_lines::ToldLines;
use crate::{StatusCause, StatusFault};
use cluster_types::Journal;
use crm_lex::Line;
use faults::with;
use names::Names;
use std::alloc::Global;

/// What one more line tells; `Repeated` where a line before it told what may be told once.
fn told_on(names: &Names<'_>, told: &ToldLines, line: &Line) -> Result<Fact, StatusFault>
    ensures read { Gives (λ one. told.now ++ one ∷ []) result (with_status_line names.now told.now line.now) }
    ensures known { IfOk result (λ one. is_known (length names.now.nodes) one ≡ true) }
    ensures first { IfOk result (λ one. is_repeated told.now one ≡ false) }
{
    match told_of(names, line) {
        Ok(one) if told.is_repeated(one) => Err(StatusFault::At {
            line: line.line,
            cause: StatusCause::Repeated,
        }),
        Ok(one) => Ok(one),
        Err(cause) => Err(StatusFault::At {
            line: line.line,
            cause: StatusCause::Form(cause),
        }),
    }
}

/// Reads one more line.
#[tactic(auto, using(crate::proofs::FirstJournals::one_more_known, crate::proofs::FirstJournals::one_more_differs))]
fn with_line(names: &Names<'_>, told: ToldLines, line: &Line) -> Result<ToldLines, StatusFault>
    ensures read { Gives (λ more. more) result (with_status_line names.now told line.now) }
    ensures known { IfOk result (λ more. list_all (is_known (length names.now.nodes)) told ≡ true
        → list_all (is_known (length names.now.nodes)) more ≡ true) }
    ensures once { IfOk result (λ more. all_differ told ≡ true → all_differ more ≡ true) }
{
    let one = told_on(names, &told, line);
    let (told, one) = with(told, one)?;
    Ok(told.with(one)?)
}

#[tactic(auto, using(crate::proofs::LinesSoFar::one_more))]
fn with_lines(alloc: Global, names: &Names<'_>, lines: &[Line]) -> Result<ToldLines, StatusFault>
    ensures read { Gives (λ told. told) result (with_status_lines names.now [] lines.now) }
    ensures known { IfOk result (λ told. list_all (is_known (length names.now.nodes)) told ≡ true) }
    ensures once { IfOk result (λ told. all_differ told ≡ true) }
{
    let mut told = ToldLines::new(alloc);
    for line in lines {
        told = with_line(names, told, line)?;
    }
    Ok(told)
}

/// The first journal of all that the lines told.
#[tactic(auto, using(crate::proofs::FirstJournals::journal_in_order, crate::proofs::FirstJournals::journal_is_idle, crate::proofs::FirstJournals::journal_moment, crate::proofs::FirstJournals::promotions_differ))]
fn told_journal(alloc: Global, names: &Names<'_>, told: &[Fact]) -> Result<Journal, StatusFault>
    requires known { list_all (is_known (length names.now.nodes)) told.now ≡ true }
    requires once { all_differ told.now ≡ true }
    ensures read { Gives (λ journal. journal) result (Ok (journal_of names.now told.now)) }
    ensures orderly { IfOk result (λ journal. Orderly journal.events) }
    ensures idle { IfOk result (λ journal. in_flight_by_begin journal.events ≡ []) }
    ensures moment { IfOk result (λ journal. moment_of journal.events < 2 ^ 40) }
    ensures once { IfOk result (λ journal. AllPairs (λ (one other : PromotionOf). is_promotion_of_same_cell one other ≡ false) journal.promotions) }
{
    Ok(journal_of(alloc, names, told)?)
}

/// All lines, one after the other, and then the journal.
fn status_journal(alloc: Global, names: &Names<'_>, lines: &[Line]) -> Result<Journal, StatusFault>
    ensures read { Gives (λ journal. journal) result (status_journal names.now lines.now) }
    ensures orderly { IfOk result (λ journal. Orderly journal.events) }
    ensures idle { IfOk result (λ journal. in_flight_by_begin journal.events ≡ []) }
    ensures moment { IfOk result (λ journal. moment_of journal.events < 2 ^ 40) }
    ensures once { IfOk result (λ journal. AllPairs (λ (one other : PromotionOf). is_promotion_of_same_cell one other ≡ false) journal.promotions) }
{
    let told = with_lines(alloc, names, lines)?;
    told_journal(alloc, names, told.as_slice())
}

/// Reads the status of a cluster as its first journal (Pacemaker Explained, operation history; the lines are a rule of this project).
///
/// The lines are those between `%status` and the next section. Each is `now SECONDS`, `quorum yes` or `quorum no`, `node NODE` and `online`,
/// `offline` or `unclean`, `op NODE LEAF OP MS CODE SECONDS`, `cleanup NODE LEAF` or `promotion NODE LEAF SCORE`. SECONDS are below
/// 1,099,511,627,776, MS is at most 4,294,967,295 for a monitor and 0 for the other operations, and CODE is from 0 to 255 or `timeout`. Only a
/// promotable leaf is promoted, demoted and wants to be promoted.
///
/// In the journal each node joins, then come the operations and cleanups in the order of the lines, then the nodes leave that aren't online,
/// and then comes quorum, which is no without a line, and the moment, which is 0 without one. It is in order and has nothing in flight.
///
/// A fault is that of the first faulty line, at its leftmost faulty word: `UnknownStatement` at a first word that begins no line of a status,
/// `MissingWord` where the line ends too early, `ExtraWord` past its end, `UnknownName` at a NODE or LEAF that the cluster doesn't have, and
/// `BadValue` at any other word that isn't one of its place. `Repeated` comes where all words of a line are read, and a line before it said the
/// moment, quorum, the state of this node or the score of this cell. `NoMemory` comes when memory runs out.
///
/// Of what is read each line says its fact, by one of the forms in `specs/Grammar`. Of what is refused each line before the one at fault does, and
/// no form has the words of that one, unless it is `Repeated`.
pub fn read_status(alloc: Global, names: &Names<'_>, lines: &[Line]) -> Result<Journal, StatusFault>
    ensures read { Gives (λ journal. journal) result (status_journal names.now lines.now) }
    ensures orderly { IfOk result (λ journal. Orderly journal.events) }
    ensures idle { IfOk result (λ journal. in_flight_by_begin journal.events ≡ []) }
    ensures moment { IfOk result (λ journal. moment_of journal.events < 2 ^ 40) }
    ensures once { IfOk result (λ journal. AllPairs (λ (one other : PromotionOf). is_promotion_of_same_cell one other ≡ false) journal.promotions) }
    ensures said { AsLinesSay (StatusIsSaid names.now lines.now) (IsStatusRefused names.now lines.now) result }
{
    status_journal(alloc, names, lines)
}
