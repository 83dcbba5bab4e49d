ghost use Rattle.std.specs.Prelude.{◌≡◌, ◌+◌, ◌<◌, ◌≤◌, ◌^◌, ◌++◌, ◌∷◌, [], true, false, length, drop, slice_index, OnOk, IfOk, IfErr, vec_capacity};
ghost use Rattle.crm_lex.specs.RawLines.{is_blank, physical_lines};
ghost use Rattle.crm_lex.specs.Words.{words_of};
ghost use Rattle.crm_lex.specs.Inner.Parts.{is_plain_line};
ghost use Rattle.faults.specs.declared.fault.Fault.TheVariants as no;
ghost use Rattle.faults.specs.Reading.{Gives};
ghost use Rattle.crm_lex.specs.Reading.{reads, reads_line, row};

use crate::logical::{LONGEST_LINE, first_logical_line, is_plain, line_count, line_text};
use crate::physical::{begins_comment, byte_fault, content};
use crate::word::{ends_word, plain_end, read_word, word_start};
use crate::{LexFault, Line, Name, NoMemory};
use listed::Listed;
use std::alloc::{AllocError, Global};

/// Adds a name with these bytes.
fn add_name(alloc: Global, bytes: &[u8], found: &mut Vec<Name>) -> Result<(), NoMemory>
    ensures { OnOk result (found.new.items ≡ found.old.items ++ bytes.now ∷ []) }
{
    let name = Name::from_bytes(alloc, bytes)?;
    found.push(name)?;
    Ok(())
}

/// Adds the word that begins at this place, and says where it ends. `word` has room for it.
fn add_word(
    alloc: Global,
    text: &[u8],
    from: usize,
    word: &mut Vec<u8>,
    found: &mut Vec<Name>,
) -> Result<usize, NoMemory>
    requires from_in { from < length text.now }
    requires begins { is_blank (slice_index text.now from) ≡ false }
    requires room { length text.now ≤ vec_capacity word.old }
    ensures words { IfOk result (λ behind. found.new.items ++ words_of (drop behind text.now)
        ≡ found.old.items ++ words_of (drop from text.now)) }
    ensures low { IfOk result (λ behind. from < behind) }
    ensures high { IfOk result (λ behind. behind ≤ length text.now) }
    ensures capacity { vec_capacity word.new ≡ vec_capacity word.old }
{
    let end = plain_end(text, from);
    if ends_word(text, end) {
        add_name(alloc, &text[from..end], found)?;
        return Ok(end);
    }
    word.clear();
    let behind = read_word(text, from, word);
    add_name(alloc, word.as_slice(), found)?;
    Ok(behind)
}

/// Puts the words of a text into `found`, in place of what it has. `word` has room for one word.
fn find_words(
    alloc: Global,
    text: &[u8],
    word: &mut Vec<u8>,
    found: &mut Vec<Name>,
) -> Result<(), NoMemory>
    requires { length text.now ≤ vec_capacity word.old }
    ensures words { OnOk result (found.new.items ≡ words_of text.now) }
    ensures capacity { vec_capacity word.new ≡ vec_capacity word.old }
{
    found.clear();
    let mut at = word_start(text, 0);
    while at < text.len() {
        let behind = add_word(alloc, text, at, word, found)?;
        at = word_start(text, behind);
    }
    Ok(())
}

/// Moves the names out of the list that it is lent, into one without room for more.
fn list_of(alloc: Global, names: &mut Vec<Name>) -> Result<Listed<Name>, NoMemory>
    ensures { IfOk result (λ list. list ≡ names.old.items) }
{
    let mut list = Vec::with_capacity(alloc, names.len())?;
    list.append(names)?;
    Ok(Listed::from(list))
}

/// The words of a text, in a list without room for more. `word` has room for one word.
fn read_words(
    alloc: Global,
    text: &[u8],
    word: &mut Vec<u8>,
    found: &mut Vec<Name>,
) -> Result<Listed<Name>, LexFault>
    requires { length text.now ≤ vec_capacity word.old }
    ensures words { IfOk result (λ words. words ≡ words_of text.now) }
    ensures memory { IfErr result (λ fault. fault ≡ no.NoMemory) }
    ensures capacity { vec_capacity word.new ≡ vec_capacity word.old }
{
    find_words(alloc, text, word, found)?;
    Ok(list_of(alloc, found)?)
}

/// What is read of a plain line, whose content is its text where it is no comment.
fn read_plain_line(
    alloc: Global,
    number: u32,
    raw: &[u8],
    word: &mut Vec<u8>,
    found: &mut Vec<Name>,
) -> Result<Listed<Name>, LexFault>
    requires plain { is_plain_line (physical_lines raw.now) ≡ true }
    requires room { 1048576 ≤ vec_capacity word.old }
    ensures words { Gives (λ words. words) result (reads_line number raw.now) }
    ensures capacity { vec_capacity word.new ≡ vec_capacity word.old }
{
    if let Some(fault) = byte_fault(number, raw) {
        return Err(fault);
    }
    let content = content(raw);
    if begins_comment(content) {
        return Ok(Listed::new(alloc));
    }
    read_words(alloc, content, word, found)
}

/// What is read of the bytes of one logical line, of which the first physical line has this number. `text` has room for
/// its text, and `word` for one word.
fn read_line(
    alloc: Global,
    number: u32,
    raw: &[u8],
    text: &mut Vec<u8>,
    word: &mut Vec<u8>,
    found: &mut Vec<Name>,
) -> Result<Listed<Name>, LexFault>
    requires some { 0 < length raw.now }
    requires numbers { number + length (physical_lines raw.now) ≤ 2 ^ 32 }
    requires text_room { 1048576 ≤ vec_capacity text.old }
    requires word_room { 1048576 ≤ vec_capacity word.old }
    ensures words { Gives (λ words. words) result (reads_line number raw.now) }
    ensures text_room { vec_capacity text.new ≡ vec_capacity text.old }
    ensures word_room { vec_capacity word.new ≡ vec_capacity word.old }
{
    if is_plain(raw) {
        return read_plain_line(alloc, number, raw, word, found);
    }
    if let Some(fault) = line_text(number, raw, text) {
        return Err(fault);
    }
    read_words(alloc, text.as_slice(), word, found)
}

/// Adds a line, if it has words.
fn add_row(lines: &mut Vec<Line>, line: u32, words: Listed<Name>) -> Result<(), AllocError>
    ensures { OnOk result (lines.new.items ≡ lines.old.items ++ row line words) }
{
    if !words.is_empty() {
        lines.push(Line { line, words })?;
    }
    Ok(())
}

/// The logical lines of a text with their words, or its first fault. `text` has room for the text of a line, and `word`
/// for one word.
fn read_lines(
    alloc: Global,
    bytes: &[u8],
    text: &mut Vec<u8>,
    word: &mut Vec<u8>,
    found: &mut Vec<Name>,
) -> Result<Vec<Line>, LexFault>
    requires few { length bytes.now < 2 ^ 32 }
    requires text_room { 1048576 ≤ vec_capacity text.old }
    requires word_room { 1048576 ≤ vec_capacity word.old }
    ensures { Gives (λ lines. lines.items) result (reads bytes.now) }
{
    let mut lines = Vec::new(alloc);
    let mut rest = bytes;
    let mut number = 1u64;
    while !rest.is_empty() {
        let (raw, after) = first_logical_line(rest);
        let words = read_line(alloc, number as u32, raw, text, word, found)?;
        add_row(&mut lines, number as u32, words)?;
        number += line_count(raw) as u64;
        rest = after;
    }
    Ok(lines)
}

/// The logical lines of a text with their words, or its first fault. A line without words, as a comment, is left out.
/// (crmsh manual, continuation lines, comments and quoting; the faults and the limit are a rule of this project.) It asks
/// for fewer than 2^32 bytes.
pub fn logical_lines(alloc: Global, bytes: &[u8]) -> Result<Vec<Line>, LexFault>
    requires { length bytes.now < 2 ^ 32 }
    ensures { Gives (λ lines. lines.items) result (reads bytes.now) }
{
    let mut text = Vec::with_capacity(alloc, LONGEST_LINE)?;
    let mut word = Vec::with_capacity(alloc, LONGEST_LINE)?;
    let mut found = Vec::new(alloc);
    read_lines(alloc, bytes, &mut text, &mut word, &mut found)
}
