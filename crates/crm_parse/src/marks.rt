//! The sections of a text: the configuration, the status, and the results or the trace.

ghost use Rattle.std.specs.Prelude.{◌≡◌, ◌<◌, ◌^◌, length, []};
ghost use Rattle.std.specs.List.{list_any, position_or_len};
ghost use Rattle.crm_parse.specs.Marks.{audit_sections_of, begins_with, first_word, has_percent, is_in_place, is_mark, last_at, misplaced, sections_of, status_at};

use crate::{ParseCause, ParseFault};
use crm_lex::Line;

/// Where the sections of an input with results begin, as positions of lines, counted from 0.
#[derive(Clone, Copy, Debug, PartialEq, Eq)]
pub struct SectionMarks {
    /// The line `%status`, or `results_at` where there is none.
    pub status_at: u32,
    /// The line `%results`, or `end` where there is none.
    pub results_at: u32,
    /// The number of lines.
    pub end: u32,
}

/// Where the sections of an input with a trace begin, as positions of lines, counted from 0.
#[derive(Clone, Copy, Debug, PartialEq, Eq)]
pub struct AuditMarks {
    /// The line `%status`, or `trace_at` where there is none.
    pub status_at: u32,
    /// The line `%trace`, or `end` where there is none.
    pub trace_at: u32,
    /// The number of lines.
    pub end: u32,
}

const STATUS: &[u8] = b"%status";

fn first_word(line: &Line) -> &[u8]
    ensures { result.now ≡ first_word line.now.words }
{
    match line.words.as_slice() {
        [word, ..] => word.bytes(),
        [] => b"",
    }
}

fn begins_with(word: &[u8], line: &Line) -> bool
    ensures { result ≡ begins_with word.now line.now }
{
    first_word(line) == word
}

fn has_percent(word: &[u8]) -> bool
    ensures { result ≡ has_percent word.now }
{
    match word {
        [first, ..] => *first == b'%',
        [] => false,
    }
}

fn is_mark(line: &Line) -> bool
    ensures { result ≡ is_mark line.now }
{
    has_percent(first_word(line))
}

fn has_mark(lines: &[Line]) -> bool
    ensures { result ≡ list_any is_mark lines.now }
{
    lines.iter().any(|line| is_mark(line))
}

fn has(word: &[u8], lines: &[Line]) -> bool
    ensures { result ≡ list_any (begins_with word.now) lines.now }
{
    lines.iter().any(|line| begins_with(word, line))
}

/// Whether a section line is in its place after the lines before it, where the last section has this name.
fn is_in_place(last: &[u8], before: &[Line], line: &Line) -> bool
    ensures { result ≡ is_in_place last.now before.now line.now }
{
    line.words.len() == 1
        && (begins_with(STATUS, line) && !has_mark(before)
            || begins_with(last, line) && !has(last, before))
}

/// The number of the first section line that isn't in its place.
fn misplaced(last: &[u8], lines: &[Line]) -> Option<u32>
    ensures { result ≡ misplaced last.now [] lines.now }
{
    for (place, line) in lines.iter().enumerate() {
        if is_mark(line) && !is_in_place(last, &lines[..place], line) {
            return Some(line.line);
        }
    }
    None
}

/// The position of the first line that begins with the word, or the number of lines.
fn position(word: &[u8], lines: &[Line]) -> u32
    requires { length lines.now < 2 ^ 32 }
    ensures { result ≡ position_or_len (begins_with word.now) lines.now }
{
    let position = lines.iter().position(|line| begins_with(word, line));
    position.unwrap_or(lines.len()) as u32
}

/// The sections of an input with results.
///
/// The configuration is all lines before the first whose first word begins with `%`. That line is `%status` or `%results`; `%results` may
/// follow once after `%status`, and each stands alone on its line. The first line that begins with `%` and isn't so is refused as
/// `UnknownStatement`, and no other answer than that and the sections comes. It asks for fewer than 2^32 lines. Rule of this project.
pub fn sections(lines: &[Line]) -> Result<SectionMarks, ParseFault>
    requires { length lines.now < 2 ^ 32 }
    ensures { result ≡ sections_of lines.now }
{
    let last = b"%results";
    let end = lines.len() as u32;
    if !has_mark(lines) {
        return Ok(SectionMarks {
            status_at: end,
            results_at: end,
            end,
        });
    }
    if let Some(line) = misplaced(last, lines) {
        return Err(ParseFault::At {
            line,
            cause: ParseCause::UnknownStatement,
        });
    }
    let results_at = position(last, lines);
    Ok(SectionMarks {
        status_at: position(STATUS, lines).min(results_at),
        results_at,
        end,
    })
}

/// The sections of an input with a trace. They are those of `sections` with `%trace` in the place of `%results`, and it asks for the same.
pub fn audit_sections(lines: &[Line]) -> Result<AuditMarks, ParseFault>
    requires { length lines.now < 2 ^ 32 }
    ensures { result ≡ audit_sections_of lines.now }
{
    let last = b"%trace";
    if let Some(line) = misplaced(last, lines) {
        return Err(ParseFault::At {
            line,
            cause: ParseCause::UnknownStatement,
        });
    }
    let trace_at = position(last, lines);
    Ok(AuditMarks {
        status_at: position(STATUS, lines).min(trace_at),
        trace_at,
        end: lines.len() as u32,
    })
}
