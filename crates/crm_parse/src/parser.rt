//! The statements of a text.

ghost use Rattle.std.specs.Prelude.{◌≡◌, [], IfOk, map};
ghost use Rattle.crm_parse.specs.Statements.{crm_of, statement_of, statements_of, with_line, with_lines};
ghost use Rattle.crm_parse.specs.Grammar.Configurations.{GivesWhatLinesSay, RefusesFirstSilentLine};
ghost use Rattle.faults.specs.Reading.{Gives, IsAsSaid};

use crate::actions::{finished, promotable_by};
use crate::draft::DraftStatement;
use crate::drafts::Drafts;
use crate::line::draft_of;
use crate::promotable::Promotable;
use crate::{Crm, ParseFault, Statement};
use crm_lex::{Line, NoMemory};
use listed::Listed;
use std::alloc::Global;

/// Reads one more line.
#[tactic(auto, unfolding(crate::specs::Statements::with_line))]
fn with_line(alloc: Global, drafts: Drafts, line: &Line) -> Result<Drafts, ParseFault>
    ensures { Gives (λ more. more) result (with_line drafts line.now) }
{
    match draft_of(alloc, &drafts, line.words.as_slice()) {
        Ok(draft) => {
            let statement = DraftStatement {
                line: line.line,
                draft,
            };
            Ok(drafts.with(alloc, statement)?)
        }
        Err(stop) => Err(stop.at(line.line)),
    }
}

fn with_lines(alloc: Global, lines: &[Line]) -> Result<Drafts, ParseFault>
    ensures { Gives (λ drafts. drafts) result (with_lines [] lines.now) }
{
    let mut drafts = Drafts::new(alloc);
    for line in lines {
        drafts = with_line(alloc, drafts, line)?;
    }
    Ok(drafts)
}

fn statement_of(
    alloc: Global,
    promotable: &Promotable,
    statement: DraftStatement,
) -> Result<Statement, NoMemory>
    ensures { IfOk result (λ whole. whole ≡ statement_of promotable.now statement) }
{
    Ok(Statement {
        line: statement.line,
        form: finished(alloc, promotable, statement.draft)?,
    })
}

fn statements(
    alloc: Global,
    promotable: &Promotable,
    drafts: Vec<DraftStatement>,
) -> Result<Listed<Statement>, NoMemory>
    ensures { IfOk result (λ whole. whole ≡ map (statement_of promotable.now) drafts.items) }
{
    let mut statements = Listed::new(alloc);
    for draft in drafts {
        let statement = statement_of(alloc, promotable, draft)?;
        statements.push(statement)?;
    }
    Ok(statements)
}

fn crm_of(alloc: Global, drafts: Drafts) -> Result<Crm, NoMemory>
    ensures { IfOk result (λ crm. crm ≡ crm_of drafts) }
{
    let promotable = promotable_by(alloc, drafts.as_slice())?;
    Ok(Crm {
        statements: statements(alloc, &promotable, drafts.into_vec())?,
    })
}

fn read_lines(alloc: Global, lines: &[Line]) -> Result<Crm, ParseFault>
    ensures { Gives (λ crm. crm) result (statements_of lines.now) }
{
    let drafts = with_lines(alloc, lines)?;
    Ok(crm_of(alloc, drafts)?)
}

/// Reads the statements of a configuration from its logical lines (crmsh manual, `configure`). The lines are those before the first section.
///
/// A fault is that of the first faulty line, at its leftmost faulty word: `UnknownStatement` at a first word that begins no statement,
/// `Unsupported` at what this project doesn't carry out, `BadScore`, `BadTime` and `BadValue` at a value that isn't one of its kind,
/// `MissingWord` where a statement or a section ends too early, `ExtraWord` at a word without a place, and `RepeatedKey` at a key that was
/// given before. Where a word has several causes, the first in this order counts. Whether a monitor recurs, and needs room beside others, is told
/// by an `enabled=` behind its `interval=` too. `NoMemory` comes when memory runs out.
///
/// What is read is what the lines say by the grammar, which takes no step of a reader (`says`). A line is refused just when it is the first
/// whose words say nothing after the statements before it (`silent`).
pub fn parse(alloc: Global, lines: &[Line]) -> Result<Crm, ParseFault>
    ensures read { Gives (λ crm. crm) result (statements_of lines.now) }
    ensures says { IsAsSaid (GivesWhatLinesSay lines.now) result }
    ensures silent { IsAsSaid (RefusesFirstSilentLine lines.now) result }
{
    read_lines(alloc, lines)
}
