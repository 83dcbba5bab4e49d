ghost use Rattle.std.specs.Prelude.{◌≡◌, ◌+◌, ◌<◌, ◌≤◌, ◌^◌, ◌++◌, ◌∷◌, [], Some, None, take, drop, length, vec_len, vec_capacity};
ghost use Rattle.crm_lex.specs.RawLines.{physical_lines, raw_lines, begins_comment as begins_with_comment};
ghost use Rattle.crm_lex.specs.LogicalLines as spec;
ghost use Rattle.crm_lex.specs.Inner.Parts as parts;
ghost use Rattle.crm_lex.specs.Reading.{first_lex_fault};

use crate::physical::{
    begins_comment, byte_fault, content, ends_in_backslash, first_line, goes_on, has_marks, refused,
};
use crate::word::is_open;
use crate::{LexCause, LexFault};

/// How many bytes a logical line may have without its line ends (rule of this project).
pub const LONGEST_LINE: usize = 1_048_576;

/// The length of the first logical line, with its line ends.
fn first_logical_length(text: &[u8]) -> usize
    requires { 0 < length text.now }
    ensures some { 0 < result }
    ensures within { result ≤ length text.now }
    ensures lines { raw_lines text.now
        ≡ physical_lines (take result text.now) ∷ raw_lines (drop result text.now) }
{
    let mut at = 0;
    let mut continues = false;
    while at < text.len() {
        let (line, _) = first_line(&text[at..]);
        at += line.len();
        if !goes_on(continues, line) {
            return at;
        }
        continues = true;
    }
    at
}

/// The physical lines of the first logical line, with their line ends, and the text behind them.
pub fn first_logical_line(text: &[u8]) -> (&[u8], &[u8])
    requires { 0 < length text.now }
    ensures some { 0 < length result.0.now }
    ensures whole { text.now ≡ result.0.now ++ result.1.now }
    ensures lines { raw_lines text.now ≡ physical_lines result.0.now ∷ raw_lines result.1.now }
    ensures few { length (physical_lines result.0.now) ≤ length result.0.now }
{
    text.split_at(first_logical_length(text))
}

/// How many physical lines the bytes have, of which the last may lack its line feed.
pub fn line_count(raw: &[u8]) -> usize
    ensures count { result ≡ length (physical_lines raw.now) }
    ensures few { result ≤ length raw.now }
{
    let mut rest = raw;
    let mut count = 0;
    while !rest.is_empty() {
        rest = first_line(rest).1;
        count += 1;
    }
    count
}

/// How many bytes the physical lines have without their line ends.
fn content_length(raw: &[u8]) -> usize
    ensures { result ≡ spec.content_length (physical_lines raw.now) }
{
    let mut rest = raw;
    let mut total = 0;
    while !rest.is_empty() {
        let (line, after) = first_line(rest);
        total += content(line).len();
        rest = after;
    }
    total
}

/// The first fault of the bytes of physical lines, of which the first has this number.
fn first_byte_fault(first: u64, raw: &[u8]) -> Option<LexFault>
    requires { first + length (physical_lines raw.now) ≤ 2 ^ 32 }
    ensures { result ≡ first_lex_fault (spec.all_byte_faults first (physical_lines raw.now)) }
{
    let mut rest = raw;
    let mut number = first;
    while !rest.is_empty() {
        let (line, after) = first_line(rest);
        let fault = byte_fault(number as u32, line);
        if fault.is_some() {
            return fault;
        }
        rest = after;
        number += 1;
    }
    None
}

/// Adds the bytes. It takes no memory.
fn add(bytes: &[u8], text: &mut Vec<u8>)
    requires { vec_len text.old + length bytes.now ≤ vec_capacity text.old }
    ensures items { text.new.items ≡ text.old.items ++ bytes.now }
    ensures length { vec_len text.new ≡ vec_len text.old + length bytes.now }
    ensures capacity { vec_capacity text.new ≡ vec_capacity text.old }
{
    for byte in bytes {
        text.push_reserved(*byte);
    }
}

/// Adds the content with a joint in place of a backslash at its end. It takes no memory.
fn add_content(content: &[u8], joint: &[u8], text: &mut Vec<u8>)
    requires room { vec_len text.old + length content.now ≤ vec_capacity text.old }
    requires short { length joint.now ≤ 1 }
    ensures items { text.new.items ≡ text.old.items ++ spec.with_joint joint.now content.now }
    ensures room { vec_len text.new ≤ vec_len text.old + length content.now }
    ensures capacity { vec_capacity text.new ≡ vec_capacity text.old }
{
    if ends_in_backslash(content) {
        add(&content[..content.len() - 1], text);
        add(joint, text);
    } else {
        add(content, text);
    }
}

/// Whether the text has no quote and no backslash, and isn't too long.
fn is_plain_text(text: &[u8]) -> bool
    ensures { result ≡ parts.is_plain_text text.now }
{
    text.len() <= LONGEST_LINE && !has_marks(text)
}

/// Whether the logical line is one physical line without quotes and backslashes, which isn't too long.
pub fn is_plain(raw: &[u8]) -> bool
    requires { 0 < length raw.now }
    ensures { result ≡ parts.is_plain_line (physical_lines raw.now) }
{
    let (line, after) = first_line(raw);
    after.is_empty() && is_plain_text(content(line))
}

/// What a backslash becomes before the lines that are left.
fn joint(rest: &[u8]) -> &'static [u8]
    ensures joint { result.now ≡ spec.joint (physical_lines rest.now) }
    ensures short { length result.now ≤ 1 }
{
    if rest.is_empty() { b"" } else { b" " }
}

/// Adds the contents of the physical lines, joined. It takes no memory.
fn add_joined(raw: &[u8], text: &mut Vec<u8>)
    requires { vec_len text.old + spec.content_length (physical_lines raw.now) ≤ vec_capacity text.old }
    ensures items { text.new.items ≡ text.old.items ++ spec.joined_text (physical_lines raw.now) }
    ensures length { vec_len text.new
        ≤ vec_len text.old + spec.content_length (physical_lines raw.now) }
    ensures capacity { vec_capacity text.new ≡ vec_capacity text.old }
{
    let mut rest = raw;
    while !rest.is_empty() {
        let (line, after) = first_line(rest);
        add_content(content(line), joint(after), text);
        rest = after;
    }
}

fn is_comment(raw: &[u8]) -> bool
    requires { 0 < length raw.now }
    ensures { result ≡ spec.is_comment (physical_lines raw.now) }
{
    begins_comment(content(first_line(raw).0))
}

/// The first fault of a logical line that isn't too long, by its text.
fn fault_within(first: u32, raw: &[u8], text: &[u8]) -> Option<LexFault>
    requires some { 0 < length raw.now }
    requires numbers { first + length (physical_lines raw.now) ≤ 2 ^ 32 }
    requires short { spec.content_length (physical_lines raw.now) ≤ 1048576 }
    requires text { text.now ≡ spec.line_text (physical_lines raw.now) }
    ensures { result ≡ first_lex_fault (spec.faults first (physical_lines raw.now)) }
{
    let (line, after) = first_line(raw);
    let fault = byte_fault(first, line);
    if fault.is_some() {
        return fault;
    }
    if is_open(text) {
        return refused(first, LexCause::OpenQuote);
    }
    first_byte_fault(u64::from(first) + 1, after)
}

/// Puts the text of the logical line into `text`, and answers its first fault. The first physical line has the number
/// `first`. It takes no memory.
pub fn line_text(first: u32, raw: &[u8], text: &mut Vec<u8>) -> Option<LexFault>
    requires numbers { first + length (physical_lines raw.now) ≤ 2 ^ 32 }
    requires room { 1048576 ≤ vec_capacity text.old }
    ensures fault { result ≡ first_lex_fault (spec.faults first (physical_lines raw.now)) }
    ensures text { result ≡ None → text.new.items ≡ spec.line_text (physical_lines raw.now) }
    ensures room { vec_len text.new ≤ 1048576 }
    ensures capacity { vec_capacity text.new ≡ vec_capacity text.old }
{
    text.clear();
    if raw.is_empty() {
        return None;
    }
    if content_length(raw) > LONGEST_LINE {
        return refused(first, LexCause::LineTooLong);
    }
    if !is_comment(raw) {
        add_joined(raw, text);
    }
    fault_within(first, raw, text.as_slice())
}
