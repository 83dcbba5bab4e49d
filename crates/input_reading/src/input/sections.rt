//! The sections of the lines of a text.

ghost use Rattle.std.specs.Prelude.{◌≡◌, ◌+◌, ◌<◌, ◌≤◌, ◌^◌, IfOk, length, slice_range};
ghost use Rattle.crm_parse.specs.Marks.{sections_of};
ghost use Rattle.faults.specs.Reading.{Gives, faulting};
ghost use Rattle.input_reading.specs.declared.input.cause.InputCause.TheVariants as cause;
ghost use Rattle.input_reading.specs.Sections.{sections_with_trace};
ghost use Rattle.input_reading.specs.Inner.Sections.{sections_by};

use crate::input::cause::InputCause;
use crate::input::fault::InputFault;
use crm_lex::Line;
use crm_parse::{AuditMarks, SectionMarks, audit_sections, sections};

/// The last section that a text may have.
#[derive(Clone, Copy)]
pub(crate) enum LastSection {
    Results,
    Trace,
}

fn sections_with_results(lines: &[Line]) -> Result<SectionMarks, InputFault>
    requires { length lines.now < 2 ^ 32 }
    ensures { Gives (λ marks. marks) result (faulting cause.Statements (sections_of lines.now)) }
{
    sections(lines).map_err(|fault| fault.map(InputCause::Statements))
}

fn sections_with_trace(lines: &[Line]) -> Result<SectionMarks, InputFault>
    requires { length lines.now < 2 ^ 32 }
    ensures { Gives (λ marks. marks) result (faulting cause.Statements (sections_with_trace lines.now)) }
{
    let AuditMarks {
        status_at,
        trace_at,
        end,
    } = audit_sections(lines).map_err(|fault| fault.map(InputCause::Statements))?;
    Ok(SectionMarks {
        status_at,
        results_at: trace_at,
        end,
    })
}

#[tactic(auto, using(crate::proofs::Marks::in_order))]
pub(crate) fn sections_in(last: LastSection, lines: &[Line]) -> Result<SectionMarks, InputFault>
    requires { length lines.now < 2 ^ 32 }
    ensures marks { Gives (λ marks. marks) result (faulting cause.Statements (sections_by last lines.now)) }
    ensures status { IfOk result (λ marks. marks.status_at ≤ marks.results_at) }
    ensures results { IfOk result (λ marks. marks.results_at ≤ marks.end) }
    ensures end { IfOk result (λ marks. marks.end ≡ length lines.now) }
{
    match last {
        LastSection::Results => sections_with_results(lines),
        LastSection::Trace => sections_with_trace(lines),
    }
}

/// The lines after the section line at this position, up to the next section.
pub(crate) fn lines_after(lines: &[Line], mark: u32, until: u32) -> &[Line]
    requires { until ≤ length lines.now }
    ensures { result.now ≡ slice_range lines.now (mark + 1) until }
{
    if mark < until {
        return &lines[mark as usize + 1..until as usize];
    }
    &[]
}
