ghost use Rattle.std.specs.Prelude.{◌≡◌, ◌+◌, ◌<◌, ◌≤◌, ◌^◌, ◌++◌, ◌∷◌, Some, take, drop, length};
ghost use Rattle.std.specs.List.{list_any};
ghost use Rattle.std.specs.Str.{is_utf8};
ghost use Rattle.crm_lex.specs.RawLines as raw;
ghost use Rattle.crm_lex.specs.LogicalLines as spec;
ghost use Rattle.crm_lex.specs.Inner.Parts as parts;
ghost use Rattle.crm_lex.specs.Reading.{first_lex_fault};
ghost use Rattle.faults.specs.declared.fault.Fault.TheVariants as fault;

use crate::quoting::{is_blank, is_quote};
use crate::{LexCause, LexFault};
use memchr::memchr;

/// The length of the first physical line, with its line feed.
fn first_length(text: &[u8]) -> usize
    requires { 0 < length text.now }
    ensures some { 0 < result }
    ensures within { result ≤ length text.now }
    ensures lines { raw.physical_lines text.now ≡ take result text.now ∷ raw.physical_lines (drop result text.now) }
{
    match memchr(b'\n', text) {
        Some(at) => at + 1,
        None => text.len(),
    }
}

/// The first physical line, with its line feed, and the text behind it.
pub fn first_line(text: &[u8]) -> (&[u8], &[u8])
    requires { 0 < length text.now }
    ensures some { 0 < length result.0.now }
    ensures whole { text.now ≡ result.0.now ++ result.1.now }
    ensures lines { raw.physical_lines text.now ≡ result.0.now ∷ raw.physical_lines result.1.now }
    ensures shorter { length result.1.now < length text.now }
{
    text.split_at(first_length(text))
}

/// Whether the last byte is this one. An empty text has none.
pub fn ends_in(byte: u8, bytes: &[u8]) -> bool
    ensures { result ≡ raw.ends_in byte bytes.now }
{
    match bytes {
        [.., last] => *last == byte,
        [] => false,
    }
}

/// The line without its line end, which is a line feed, or a carriage return and a line feed.
pub fn content(line: &[u8]) -> &[u8]
    ensures content { result.now ≡ raw.content line.now }
    ensures short { length result.now ≤ length line.now }
{
    if !ends_in(b'\n', line) {
        return line;
    }
    let front = &line[..line.len() - 1];
    if ends_in(b'\r', front) {
        &front[..front.len() - 1]
    } else {
        front
    }
}

/// Whether the first byte that is no blank, which is a tab or a space, is `#`. Blanks alone begin no comment.
pub fn begins_comment(content: &[u8]) -> bool
    ensures { result ≡ raw.begins_comment content.now }
{
    for byte in content {
        if !is_blank(*byte) {
            return *byte == b'#';
        }
    }
    false
}

/// Whether the last byte is a backslash.
pub fn ends_in_backslash(content: &[u8]) -> bool
    ensures { result ≡ raw.ends_in_backslash content.now }
{
    ends_in(b'\\', content)
}

/// Whether the line goes on with the next one, where it continues another or doesn't.
pub fn goes_on(continues: bool, line: &[u8]) -> bool
    ensures { result ≡ raw.goes_on continues line.now }
{
    let content = content(line);
    ends_in_backslash(content) && (continues || !begins_comment(content))
}

fn is_control(byte: u8) -> bool
    ensures { result ≡ spec.is_control byte }
{
    byte < 32 && byte != b'\t' || byte == 127
}

fn has_control(content: &[u8]) -> bool
    ensures { result ≡ list_any spec.is_control content.now }
{
    content.iter().any(|byte| is_control(*byte))
}

/// Whether there is a quote or a backslash.
pub fn has_marks(content: &[u8]) -> bool
    ensures { result ≡ list_any parts.is_quote_or_backslash content.now }
{
    content.iter().any(|byte| is_quote(*byte) || *byte == b'\\')
}

fn is_text(content: &[u8]) -> bool
    ensures { result ≡ is_utf8 content.now }
{
    simdutf8::is_utf8(content)
}

/// The fault of a line that is refused.
pub fn refused(line: u32, cause: LexCause) -> Option<LexFault>
    ensures { result ≡ Some (fault.At line cause) }
{
    Some(LexFault::At { line, cause })
}

/// The first fault of the bytes of the physical line of this number.
pub fn byte_fault(number: u32, line: &[u8]) -> Option<LexFault>
    ensures { result ≡ first_lex_fault (spec.byte_faults number line.now) }
{
    let content = content(line);
    if !is_text(content) {
        refused(number, LexCause::NotUtf8)
    } else if has_control(content) {
        refused(number, LexCause::ControlByte)
    } else {
        None
    }
}
