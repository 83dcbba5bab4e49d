ghost use Rattle.std.specs.Prelude.{◌≡◌, ◌+◌, ◌-◌, ◌<◌, ◌≤◌, ◌++◌, ◌∷◌, [], true, false, length, drop, slice_index, vec_len, vec_capacity};
ghost use Rattle.crm_lex.specs.RawLines as raw;
ghost use Rattle.crm_lex.specs.Words as spec;
ghost use Rattle.crm_lex.specs.Words.{words_of};
ghost use Rattle.crm_lex.specs.Inner.Parts as parts;
ghost use Rattle.crm_lex.specs.Inner.Parts.{PlainBetween, word_on};
ghost use Rattle.crm_lex.specs.declared.quoting.Place.TheVariants.{Outside};

use crate::quoting::{Piece, Place, is_blank, is_quote};

/// The byte at the place, if there is one.
fn byte_at(text: &[u8], at: usize) -> Option<u8>
    ensures { result ≡ spec.first_byte (drop at text.now) }
{
    text.get(at).copied()
}

/// The byte behind the place, if there is one.
fn next_byte(text: &[u8], at: usize) -> Option<u8>
    requires { at < length text.now }
    ensures { result ≡ spec.first_byte (drop (at + 1) text.now) }
{
    byte_at(text, at + 1)
}

/// Whether a quote is open at the end of the text.
pub fn is_open(text: &[u8]) -> bool
    ensures { result ≡ spec.is_open text.now }
{
    let mut place = Place::Outside;
    for at in 0..text.len() {
        place = place.after(text[at], next_byte(text, at));
    }
    place.is_inside()
}

/// Where the first word from this place on begins, or the length where there is none.
pub fn word_start(text: &[u8], from: usize) -> usize
    requires { from ≤ length text.now }
    ensures low { from ≤ result }
    ensures high { result ≤ length text.now }
    ensures words { words_of (drop from text.now) ≡ words_of (drop result text.now) }
    ensures begins { result < length text.now → raw.is_blank (slice_index text.now result) ≡ false }
{
    for at in from..text.len() {
        if !is_blank(text[at]) {
            return at;
        }
    }
    text.len()
}

/// Whether a word that is outside quotes ends at the place.
pub fn ends_word(text: &[u8], at: usize) -> bool
    ensures { result ≡ parts.ends_word (spec.first_byte (drop at text.now)) }
{
    match byte_at(text, at) {
        Some(byte) => is_blank(byte),
        None => true,
    }
}

fn ends_plain(byte: u8) -> bool
    ensures { result ≡ parts.ends_plain byte }
{
    is_blank(byte) || is_quote(byte)
}

/// Where the bytes end, from this place on, that stand for themselves in a word: at a blank, at a quote, or at the end.
pub fn plain_end(text: &[u8], from: usize) -> usize
    requires { from ≤ length text.now }
    ensures low { from ≤ result }
    ensures high { result ≤ length text.now }
    ensures plain { PlainBetween text.now from result }
    ensures ends { result < length text.now → parts.ends_plain (slice_index text.now result) ≡ true }
{
    for at in from..text.len() {
        if ends_plain(text[at]) {
            return at;
        }
    }
    text.len()
}

/// Adds the byte of a letter. It takes no memory.
fn add_letter(piece: Piece, word: &mut Vec<u8>)
    requires { vec_len word.old < vec_capacity word.old }
    ensures letters { word.new.items ≡ word.old.items ++ spec.letters (piece ∷ []) }
    ensures length { vec_len word.new ≤ vec_len word.old + 1 }
    ensures capacity { vec_capacity word.new ≡ vec_capacity word.old }
{
    if let Piece::Letter(byte) = piece {
        word.push_reserved(byte);
    }
}

/// Adds the letters of the word that begins at this place, and says where it ends. It takes no memory.
pub fn read_word(text: &[u8], from: usize, word: &mut Vec<u8>) -> usize
    requires from_in { from < length text.now }
    requires begins { raw.is_blank (slice_index text.now from) ≡ false }
    requires room { vec_len word.old + (length text.now - from) ≤ vec_capacity word.old }
    ensures low { from < result }
    ensures high { result ≤ length text.now }
    ensures letters { word.new.items ≡ word.old.items ++ word_on Outside (drop from text.now) }
    ensures words { words_of (drop from text.now)
        ≡ word_on Outside (drop from text.now) ∷ words_of (drop result text.now) }
    ensures room { vec_len word.new + (length text.now - result)
        ≤ vec_len word.old + (length text.now - from) }
    ensures capacity { vec_capacity word.new ≡ vec_capacity word.old }
{
    let mut place = Place::Outside;
    for at in from..text.len() {
        let next = next_byte(text, at);
        let piece = place.piece(text[at], next);
        if piece.is_gap() {
            return at;
        }
        add_letter(piece, word);
        place = place.after(text[at], next);
    }
    text.len()
}
