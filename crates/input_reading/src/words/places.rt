//! What stands at a place of a line, counted from 0. `MissingWord` comes when the line ends before it, but not of `end_at`.

ghost use Rattle.std.specs.Prelude.{◌≡◌, ◌<◌, ◌^◌, length, IfOk};
ghost use Rattle.crm_lex.specs.Names.{is};
ghost use Rattle.faults.specs.Reading.{Reads};
ghost use Rattle.input_reading.specs.WordPlaces.{code_at, line_end_at, leaf_at, node_at, number_at, seconds_at, word_at, yes_at, yes_or_no};

use crate::words::number_words::{code_of, number_of, seconds_of};
use crate::{WordCause, Words};
use cluster_types::{LeafId, NodeId};
use crm_lex::is;
use names::Names;

/// The word at this place.
pub fn word_at<W: Words>(place: usize, words: &W) -> Result<&[u8], WordCause>
    ensures { Reads (λ word. word.now) result (word_at place (W.words words.now)) }
{
    match words.word(place) {
        Some(word) => Ok(word),
        None => Err(WordCause::MissingWord),
    }
}

/// Takes a line that ends before this place. `ExtraWord` comes when it doesn't.
pub fn end_at<W: Words>(place: usize, words: &W) -> Result<(), WordCause>
    ensures { result ≡ line_end_at place (W.words words.now) }
{
    match words.word(place) {
        Some(_) => Err(WordCause::ExtraWord),
        None => Ok(()),
    }
}

/// The node that is named at this place. `UnknownName` comes when the cluster doesn't have it.
#[tactic(auto, unfolding(crate::specs::WordPlaces::node_at))]
pub fn node_at<W: Words>(names: &Names<'_>, place: usize, words: &W) -> Result<NodeId, WordCause>
    ensures value { result ≡ node_at names.now place (W.words words.now) }
    ensures within { IfOk result (λ node. node < length names.now.nodes) }
{
    let word = word_at(place, words)?;
    names.node_of(word).ok_or(WordCause::UnknownName)
}

/// The leaf that is named at this place. `UnknownName` comes when the cluster doesn't have it.
#[tactic(auto, unfolding(crate::specs::WordPlaces::leaf_at))]
pub fn leaf_at<W: Words>(names: &Names<'_>, place: usize, words: &W) -> Result<LeafId, WordCause>
    ensures value { result ≡ leaf_at names.now place (W.words words.now) }
    ensures within { IfOk result (λ leaf. leaf < length names.now.leaves) }
{
    let word = word_at(place, words)?;
    names.leaf_of(word).ok_or(WordCause::UnknownName)
}

/// The number of an action, from 1 to 4,294,967,295. `BadValue` comes at any other word.
#[tactic(auto, unfolding(crate::specs::WordPlaces::number_at))]
pub fn number_at<W: Words>(place: usize, words: &W) -> Result<u32, WordCause>
    ensures { result ≡ number_at place (W.words words.now) }
{
    let word = word_at(place, words)?;
    number_of(word).ok_or(WordCause::BadValue)
}

/// An exit code, from 0 to 255. `BadValue` comes at any other word.
#[tactic(auto, unfolding(crate::specs::WordPlaces::code_at))]
pub fn code_at<W: Words>(place: usize, words: &W) -> Result<u8, WordCause>
    ensures { result ≡ code_at place (W.words words.now) }
{
    let word = word_at(place, words)?;
    code_of(word).ok_or(WordCause::BadValue)
}

/// Seconds, below 1,099,511,627,776. `BadValue` comes at any other word.
#[tactic(auto, unfolding(crate::specs::WordPlaces::seconds_at))]
pub fn seconds_at<W: Words>(place: usize, words: &W) -> Result<u64, WordCause>
    ensures value { result ≡ seconds_at place (W.words words.now) }
    ensures range { IfOk result (λ seconds. seconds < 2 ^ 40) }
{
    let word = word_at(place, words)?;
    seconds_of(word).ok_or(WordCause::BadValue)
}

fn yes_or_no(word: &[u8]) -> Option<bool>
    ensures { result ≡ yes_or_no word.now }
{
    if is(word, b"yes") {
        Some(true)
    } else if is(word, b"no") {
        Some(false)
    } else {
        None
    }
}

/// Whether `yes` or `no` stands there. `BadValue` comes at any other word.
#[tactic(auto, unfolding(crate::specs::WordPlaces::yes_at))]
pub fn yes_at<W: Words>(place: usize, words: &W) -> Result<bool, WordCause>
    ensures { result ≡ yes_at place (W.words words.now) }
{
    let word = word_at(place, words)?;
    yes_or_no(word).ok_or(WordCause::BadValue)
}
