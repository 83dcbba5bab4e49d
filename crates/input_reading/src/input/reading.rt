//! What is read of a whole input, step by step.

ghost use Rattle.std.specs.Prelude.{◌≡◌, ◌<◌, ◌≤◌, ◌^◌, IfOk, Ok, [], length};
ghost use Rattle.cluster_model.specs.Expansion.{expansion_of};
ghost use Rattle.cluster_types.specs.Journals.{Orderly, in_flight_by_begin, moment_of};
ghost use Rattle.cluster_types.specs.Safety.{IsAtRest};
ghost use Rattle.cluster_types.specs.Valid.{IsValid};
ghost use Rattle.cluster_model.specs.Resolution.{resolution_of};
ghost use Rattle.crm_lex.specs.Reading.{reads};
ghost use Rattle.crm_parse.specs.Statements.{statements_of};
ghost use Rattle.input_reading.specs.FirstJournal.{status_journal};
ghost use Rattle.input_reading.specs.Results.{most_results, results_of};
ghost use Rattle.faults.specs.Reading.{Gives, faulting};
ghost use Rattle.input_reading.specs.declared.input.cause.InputCause.TheVariants as cause;
ghost use Rattle.input_reading.specs.Reading.{configuration_of, head_of, input_of, line_behind, most_bytes, nothing_yet, lone_head_of, behind_cluster, with_results};
ghost use Rattle.input_reading.specs.Inner.Reading.{AreStated, input_with, status_and_results};
ghost use Rattle.input_reading.specs.Inner.Sections.{sections_by};
ghost use Rattle.input_reading.specs.Grammar.LinesSaid.{AsLinesSay};
ghost use Rattle.input_reading.specs.Grammar.TextsSaid.{InputIsSaid, IsInputRefused, IsLoneHeadRefused, LoneHeadIsSaid};

use crate::input::cause::InputCause;
use crate::input::fault::InputFault;
use crate::input::sections::{LastSection, lines_after, sections_in};
use crate::{ResultLine, read_results, read_status};
use cluster_model::{Leaves, expand, resolve};
use cluster_types::{Cluster, Journal};
use crm_lex::{Line, logical_lines};
use crm_parse::{Crm, SectionMarks, parse};
use listed::Listed;
use names::Names;
use std::alloc::Global;

/// The most bytes that an input may have: 16 MiB (rule of this project).
pub const MOST_BYTES: usize = 16_777_216;

/// What the head of an input says: its configuration, as it was written and as a cluster, and its status.
#[derive(Drop)]
pub struct Head {
    pub crm: Crm,
    pub cluster: Cluster,
    /// The first journal, which the status tells.
    pub journal: Journal,
}

/// What an input says: its head, and its results.
#[derive(Drop)]
pub struct Input {
    pub head: Head,
    /// The answers of the result lines, in their order.
    pub results: Listed<ResultLine>,
}

/// What is read before names are resolved.
#[derive(Drop)]
pub(crate) struct Configuration {
    pub lines: Listed<Line>,
    pub marks: SectionMarks,
    pub crm: Crm,
    pub leaves: Leaves,
}

/// The lines of a text, which goes back to memory here: the words of its lines are kept apart from it.
#[tactic(auto, using(crate::proofs::FewLines::few_rows_read, crate::proofs::FewLines::few_lines_before))]
fn lines_of(alloc: Global, text: Vec<u8>) -> Result<Vec<Line>, InputFault>
    requires { length text.items ≤ most_bytes }
    ensures lines { Gives (λ lines. lines.items) result (faulting cause.Words (reads text.items)) }
    ensures few { IfOk result (λ lines. length lines.items ≤ most_bytes) }
    ensures numbers { IfOk result (λ lines. line_behind lines.items < 2 ^ 32) }
{
    logical_lines(alloc, &text).map_err(|fault| fault.map(InputCause::Words))
}

#[tactic(auto, using(crate::proofs::FewLines::few_stated))]
fn statements_in(alloc: Global, lines: &[Line]) -> Result<Crm, InputFault>
    ensures crm { Gives (λ crm. crm) result (faulting cause.Statements (statements_of lines.now)) }
    ensures few { IfOk result (λ crm. length crm.statements ≤ length lines.now) }
{
    parse(alloc, lines).map_err(|fault| fault.map(InputCause::Statements))
}

fn leaves_in(alloc: Global, crm: &Crm) -> Result<Leaves, InputFault>
    requires { length crm.now.statements ≤ most_bytes }
    ensures leaves { Gives (λ leaves. leaves) result (faulting cause.Leaves (expansion_of crm.now.statements)) }
    ensures few { IfOk result (λ leaves. length leaves.leaves ≤ length crm.now.statements) }
{
    expand(alloc, crm).map_err(|fault| fault.map(InputCause::Leaves))
}

/// The configuration of a text, which may have this last section.
#[tactic(auto, unfolding(crate::specs::Reading::configuration_of), using(crate::proofs::ValidInput::leaves_given, crate::proofs::ValidInput::stated))]
pub(crate) fn configuration_of(
    alloc: Global,
    last: LastSection,
    text: Vec<u8>,
) -> Result<Configuration, InputFault>
    requires { length text.items ≤ most_bytes }
    ensures given { Gives (λ found. found) result (configuration_of (sections_by last) text.items) }
    ensures stated { IfOk result (λ found. AreStated found.crm) }
    ensures leaves { IfOk result (λ found. expansion_of found.crm.statements ≡ Ok found.leaves) }
    ensures few { IfOk result (λ found. length found.crm.statements ≤ most_bytes) }
    ensures few_leaves { IfOk result (λ found. length found.leaves.leaves ≤ most_bytes) }
    ensures results { IfOk result (λ found. found.marks.results_at ≤ length found.lines) }
    ensures end { IfOk result (λ found. found.marks.end ≤ length found.lines) }
    ensures numbers { IfOk result (λ found. line_behind found.lines < 2 ^ 32) }
{
    let lines = lines_of(alloc, text)?;
    let marks = sections_in(last, &lines)?;
    let crm = statements_in(alloc, &lines[..marks.status_at as usize])?;
    let leaves = leaves_in(alloc, &crm)?;
    Ok(Configuration {
        lines: Listed::from(lines),
        marks,
        crm,
        leaves,
    })
}

fn status_in(alloc: Global, names: &Names<'_>, lines: &[Line]) -> Result<Journal, InputFault>
    ensures journal { Gives (λ journal. journal) result (faulting cause.Status (status_journal names.now lines.now)) }
    ensures moment { IfOk result (λ journal. moment_of journal.events < 2 ^ 40) }
{
    read_status(alloc, names, lines).map_err(|fault| fault.map(InputCause::Status))
}

fn results_in(
    alloc: Global,
    names: &Names<'_>,
    journal: &Journal,
    lines: &[Line],
) -> Result<Listed<ResultLine>, InputFault>
    requires { moment_of journal.now.events < 2 ^ 40 }
    ensures { Gives (λ results. results) result (faulting cause.Results (results_of names.now (moment_of journal.now.events) lines.now)) }
{
    let results = read_results(alloc, names, journal, lines).map_err(|fault| fault.map(
        InputCause::Results,
    ))?;
    Ok(Listed::from(results))
}

/// What the lines of the status and the result lines tell of a cluster. Its names are made once for both.
#[tactic(auto, unfolding(crate::specs::Inner::Reading::status_and_results))]
fn status_and_results(
    alloc: Global,
    cluster: &Cluster,
    status: &[Line],
    results: &[Line],
) -> Result<(Journal, Listed<ResultLine>), InputFault>
    requires { IsValid cluster.now }
    ensures told { Gives (λ told. told) result (status_and_results cluster.now status.now results.now) }
    ensures moment { IfOk result (λ told. moment_of told.0.events < 2 ^ 40) }
{
    let names = Names::new(alloc, cluster)?;
    let journal = status_in(alloc, &names, status)?;
    let results = results_in(alloc, &names, &journal, results)?;
    Ok((journal, results))
}

/// The journal that the status tells, where nothing else names what is in the cluster.
fn status_of(alloc: Global, cluster: &Cluster, lines: &[Line]) -> Result<Journal, InputFault>
    requires { IsValid cluster.now }
    ensures journal { Gives (λ journal. journal) result (faulting cause.Status (status_journal cluster.now lines.now)) }
    ensures moment { IfOk result (λ journal. moment_of journal.events < 2 ^ 40) }
{
    let names = Names::new(alloc, cluster)?;
    status_in(alloc, &names, lines)
}

/// The head of an input with these lines of the status.
#[tactic(auto, unfolding(crate::specs::Reading::head_of))]
pub(crate) fn head_of(
    alloc: Global,
    crm: Crm,
    cluster: Cluster,
    lines: &[Line],
) -> Result<Head, InputFault>
    requires { IsValid cluster }
    ensures head { Gives (λ head. head) result (head_of crm cluster lines.now) }
    ensures valid { IfOk result (λ head. IsValid head.cluster) }
    ensures moment { IfOk result (λ head. moment_of head.journal.events < 2 ^ 40) }
{
    let journal = status_of(alloc, &cluster, lines)?;
    Ok(Head {
        crm,
        cluster,
        journal,
    })
}

/// An input whose configuration says this cluster, with these lines of the status and these result lines.
#[tactic(auto, using(crate::proofs::ToldInput::input_told))]
fn input_with(
    alloc: Global,
    crm: Crm,
    cluster: Cluster,
    status: &[Line],
    results: &[Line],
) -> Result<Input, InputFault>
    requires { IsValid cluster }
    ensures input { Gives (λ input. input) result (input_with crm cluster status.now results.now) }
    ensures moment { IfOk result (λ input. moment_of input.head.journal.events < 2 ^ 40) }
{
    let (journal, results) = status_and_results(alloc, &cluster, status, results)?;
    let head = Head {
        crm,
        cluster,
        journal,
    };
    Ok(Input { head, results })
}

/// Reads the other sections, where the configuration says this cluster.
fn behind_cluster(
    alloc: Global,
    found: Configuration,
    cluster: Cluster,
) -> Result<Input, InputFault>
    requires valid { IsValid cluster }
    requires results { found.marks.results_at ≤ length found.lines }
    requires end { found.marks.end ≤ length found.lines }
    ensures input { Gives (λ input. input) result (behind_cluster with_results found cluster) }
    ensures moment { IfOk result (λ input. moment_of input.head.journal.events < 2 ^ 40) }
{
    let Configuration {
        lines,
        marks,
        crm,
        leaves: _,
    } = found;
    let lines = lines.as_slice();
    let status = lines_after(lines, marks.status_at, marks.results_at);
    let results = lines_after(lines, marks.results_at, marks.end);
    input_with(alloc, crm, cluster, status, results)
}

fn resolved(alloc: Global, crm: &Crm, leaves: &Leaves) -> Result<Cluster, InputFault>
    requires few { length crm.now.statements ≤ most_bytes }
    requires few_leaves { length leaves.now.leaves ≤ most_bytes }
    ensures { Gives (λ cluster. cluster) result (faulting cause.Cluster (resolution_of leaves.now crm.now.statements)) }
{
    resolve(alloc, crm, leaves).map_err(|fault| fault.map(InputCause::Cluster))
}

/// The cluster that a configuration says.
pub(crate) fn cluster_in(alloc: Global, found: &Configuration) -> Result<Cluster, InputFault>
    requires stated { AreStated found.now.crm }
    requires leaves { expansion_of found.now.crm.statements ≡ Ok found.now.leaves }
    requires few { length found.now.crm.statements ≤ most_bytes }
    requires few_leaves { length found.now.leaves.leaves ≤ most_bytes }
    ensures cluster { Gives (λ cluster. cluster) result (faulting cause.Cluster (resolution_of found.now.leaves found.now.crm.statements)) }
    ensures valid { IfOk result (λ cluster. IsValid cluster) }
{
    resolved(alloc, &found.crm, &found.leaves)
}

/// Reads the status, where the configuration says this cluster.
fn with_status(alloc: Global, found: Configuration, cluster: Cluster) -> Result<Head, InputFault>
    requires valid { IsValid cluster }
    requires results { found.marks.results_at ≤ length found.lines }
    ensures head { Gives (λ head. head) result (behind_cluster nothing_yet found cluster) }
    ensures moment { IfOk result (λ head. moment_of head.journal.events < 2 ^ 40) }
{
    let Configuration {
        lines,
        marks,
        crm,
        leaves: _,
    } = found;
    let status = lines_after(lines.as_slice(), marks.status_at, marks.results_at);
    let head = head_of(alloc, crm, cluster, status)?;
    Ok(head)
}

/// All steps but the last, one after the other.
#[tactic(auto, unfolding(crate::specs::Reading::lone_head_of))]
fn lone_head_of(alloc: Global, text: Vec<u8>) -> Result<Head, InputFault>
    requires { length text.items ≤ most_bytes }
    ensures head { Gives (λ head. head) result (lone_head_of text.items) }
    ensures moment { IfOk result (λ head. moment_of head.journal.events < 2 ^ 40) }
{
    let found = configuration_of(alloc, LastSection::Results, text)?;
    let cluster = cluster_in(alloc, &found)?;
    with_status(alloc, found, cluster)
}

/// Reads the head of an input that stands alone, of at most 16,777,216 bytes, as `read_input` reads a whole input.
pub fn read_lone_head(alloc: Global, text: Vec<u8>) -> Result<Head, InputFault>
    requires { length text.items ≤ most_bytes }
    ensures read { Gives (λ head. head) result (lone_head_of text.items) }
    ensures said { AsLinesSay (LoneHeadIsSaid text.items) (IsLoneHeadRefused text.items) result }
    ensures valid { IfOk result (λ head. IsValid head.cluster) }
    ensures at_rest { IfOk result (λ head. IsAtRest head.journal.events) }
    ensures moment { IfOk result (λ head. moment_of head.journal.events < 2 ^ 40) }
{
    lone_head_of(alloc, text)
}

/// All steps, one after the other.
#[tactic(auto, unfolding(crate::specs::Reading::input_of))]
fn input_of(alloc: Global, text: Vec<u8>) -> Result<Input, InputFault>
    requires { length text.items ≤ most_bytes }
    ensures input { Gives (λ input. input) result (input_of text.items) }
    ensures moment { IfOk result (λ input. moment_of input.head.journal.events < 2 ^ 40) }
{
    let found = configuration_of(alloc, LastSection::Results, text)?;
    let cluster = cluster_in(alloc, &found)?;
    behind_cluster(alloc, found, cluster)
}

/// Reads a whole input of at most 16,777,216 bytes (crmsh manual, `configure`; the status, the results and the order of the steps
/// are rules of this project).
///
/// The steps are the words of all lines, the sections, the statements of the configuration, its leaves, its cluster, the lines of the
/// status and the result lines. A fault is that of the first step that fails, at the lowest line that is at fault in it, with the cause
/// that the reader of that step gives. `NoMemory` comes when memory runs out. The text goes back to memory after the first step.
///
/// The lines of the configuration say its statements, and those of the status and the result lines what is read of them, each its part, by the
/// forms in `specs/Grammar` here and of `crm_parse`. When one of them is at fault, those before it do. None of the forms has its words; or it is
/// `Repeated`, or behind too many results; or `expand` or `resolve` refuses its statement.
///
/// What is read is valid: the cluster is, and the first journal is in order, has nothing in flight and a moment below 2^40 seconds. There are at
/// most 10,000 result lines.
pub fn read_input(alloc: Global, text: Vec<u8>) -> Result<Input, InputFault>
    requires { length text.items ≤ most_bytes }
    ensures read { Gives (λ input. input) result (input_of text.items) }
    ensures said { AsLinesSay (InputIsSaid text.items) (IsInputRefused text.items) result }
    ensures valid { IfOk result (λ input. IsValid input.head.cluster) }
    ensures orderly { IfOk result (λ input. Orderly input.head.journal.events) }
    ensures idle { IfOk result (λ input. in_flight_by_begin input.head.journal.events ≡ []) }
    ensures moment { IfOk result (λ input. moment_of input.head.journal.events < 2 ^ 40) }
    ensures few { IfOk result (λ input. length input.results ≤ most_results) }
{
    input_of(alloc, text)
}
