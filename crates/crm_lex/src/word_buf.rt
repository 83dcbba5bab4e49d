ghost use Rattle.std.specs.Prelude.{◌≡◌, ◌≢◌, ◌+◌, ◌<◌, ◌≤◌, ◌^◌, ◌++◌, ◌∷◌, [], length, min, take, slice_get, vec_len, vec_capacity, IfOk, IfErr};
ghost use Rattle.std.specs.Option.{option_copied};
ghost use Rattle.crm_lex.specs.RawLines.{physical_lines};
ghost use Rattle.faults.specs.declared.fault.Fault.TheVariants as no;
ghost use Rattle.crm_lex.specs.Reading.{kept, kept_of, reads_line, without_words};
ghost use Rattle.crm_lex.specs.Words.{words_of};
ghost use Rattle.crm_lex.specs.WordRoom.{AllWithin, words_at};

use crate::logical::{LONGEST_LINE, line_text};
use crate::span::Span;
use crate::word::{read_word, word_start};
use crate::{LexFault, NoMemory};
use std::alloc::Global;
use std::marker::Model;

/// How many words are kept.
const KEPT: usize = 8;

/// The first eight words of a logical line, and the count of all its words. It has room for the words of any logical
/// line that isn't too long, so that filling it takes no memory.
#[derive(Drop)]
pub struct WordBuf {
    text: Vec<u8>,
    letters: Vec<u8>,
    spans: Vec<Span>,
    count: usize,
}

impl Model for WordBuf {
    ghost use Rattle.std.specs.Prelude.{vec_capacity};
    ghost use Rattle.crm_lex.specs.Reading.{Kept};
    ghost use Rattle.crm_lex.specs.WordRoom.{Room, words_at};

    ghost Value = { Kept };

    ghost view = { λ buf. record { count = buf.count; first = words_at buf.letters.items buf.spans.items } };

    ghost invariant = { λ buf. Room (vec_capacity buf.text) (vec_capacity buf.letters)
        (vec_capacity buf.spans) buf.letters.items buf.spans.items buf.count };
}

impl WordBuf {
    /// A buffer without words, with memory for 1,048,576 bytes of them.
    pub fn new(alloc: Global) -> Result<WordBuf, NoMemory>
        ensures { IfOk result (λ words. words ≡ kept []) }
    {
        Ok(WordBuf {
            text: Vec::with_capacity(alloc, LONGEST_LINE)?,
            letters: Vec::with_capacity(alloc, LONGEST_LINE)?,
            spans: Vec::with_capacity(alloc, KEPT)?,
            count: 0,
        })
    }

    /// How many words the line has. The first eight of them are kept.
    pub fn count(&self) -> usize
        ensures count { result ≡ self.now.count }
        ensures first { length self.now.first ≡ min 8 result }
    {
        self.count
    }

    /// The word of this index, counted from 0, if it is among the first eight.
    pub fn word(&self, index: usize) -> Option<&[u8]>
        ensures { option_copied result ≡ slice_get self.now.first index }
    {
        let span = self.spans.get(index)?;
        Some(&self.letters[span.start..span.end])
    }
}

/// Keeps the place of a word, if it is among the first eight.
fn keep_span(span: Span, spans: &mut Vec<Span>)
    requires room { 8 ≤ vec_capacity spans.old }
    requires few { vec_len spans.old ≤ 8 }
    ensures spans { spans.new.items ≡ take 8 (spans.old.items ++ span ∷ []) }
    ensures length { vec_len spans.new ≡ min 8 (vec_len spans.old + 1) }
    ensures capacity { vec_capacity spans.new ≡ vec_capacity spans.old }
{
    if spans.len() < KEPT {
        spans.push_reserved(span);
    }
}

/// Keeps the first eight words of the text, and counts all. It takes no memory.
fn keep_words(text: &[u8], letters: &mut Vec<u8>, spans: &mut Vec<Span>) -> usize
    requires no_letters { letters.old.items ≡ [] }
    requires no_spans { spans.old.items ≡ [] }
    requires letters_room { length text.now ≤ vec_capacity letters.old }
    requires spans_room { 8 ≤ vec_capacity spans.old }
    ensures count { result ≡ length (words_of text.now) }
    ensures first { words_at letters.new.items spans.new.items ≡ take 8 (words_of text.now) }
    ensures within { AllWithin (vec_len letters.new) spans.new.items }
    ensures all { vec_len spans.new ≡ min 8 result }
    ensures letters_room { vec_capacity letters.new ≡ vec_capacity letters.old }
    ensures spans_room { vec_capacity spans.new ≡ vec_capacity spans.old }
{
    let mut at = word_start(text, 0);
    let mut count = 0;
    while at < text.len() {
        let start = letters.len();
        let behind = read_word(text, at, letters);
        keep_span(
            Span {
                start,
                end: letters.len(),
            },
            spans,
        );
        count += 1;
        at = word_start(text, behind);
    }
    count
}

/// Reads the words of one logical line. `raw` has all its bytes, with the line ends, and is read as one line whatever it
/// has. `line` is the number of its first physical line. The buffer then has these words, or none where the line is
/// refused. A comment and a line of blanks have no words. It takes no memory and never answers `NoMemory`. (The words and
/// faults are those of `logical_lines`.)
pub fn lex_one(line: u32, raw: &[u8], into: &mut WordBuf) -> Result<(), LexFault>
    requires { line + length (physical_lines raw.now) ≤ 2 ^ 32 }
    ensures answer { result ≡ without_words (reads_line line raw.now) }
    ensures words { into.new ≡ kept_of (reads_line line raw.now) }
    ensures no_memory { IfErr result (λ fault. fault ≢ no.NoMemory) }
{
    into.letters.clear();
    into.spans.clear();
    into.count = 0;
    if let Some(fault) = line_text(line, raw, &mut into.text) {
        return Err(fault);
    }
    into.count = keep_words(into.text.as_slice(), &mut into.letters, &mut into.spans);
    Ok(())
}
