//! The sections of a statement.

ghost use Rattle.std.specs.Prelude.{◌≡◌, ◌==◌, ◌≤◌, length, take, drop, [], Some, false, true};
ghost use Rattle.faults.specs.Inner.Reading.{GivesInLine};
ghost use Rattle.crm_parse.specs.Sections.{allowed, allows_section, cut_into_sections, is_section, may_follow, no_sections, place_of, section_of, section_word, sections_at, sections_from, takes_name, with_part, with_words};

use crate::fault::Stop;
use crate::keyed_pairs::KeyedPairs;
use crate::keys::stray;
use crate::operations::operation_of;
use crate::owner::{Owner, SectionWord};
use crate::pairs::add_section;
use crate::place::Place;
use crate::{Kv, Operation, ParseCause};
use crm_lex::{Name, is};
use faults::done;
use listed::Listed;
use std::alloc::Global;

/// The sections of a statement. Several of one kind are joined.
#[derive(Drop)]
pub struct Sections {
    pub attributes: KeyedPairs,
    pub params: KeyedPairs,
    pub meta: KeyedPairs,
    pub utilization: KeyedPairs,
    pub operations: KeyedPairs,
    pub ops: Listed<Operation>,
}

impl Sections {
    /// The parameters and the meta attributes.
    pub fn into_pairs(self) -> (Listed<Kv>, Listed<Kv>)
        ensures { result ≡ (self.params, self.meta) }
    {
        (self.params.into_list(), self.meta.into_list())
    }
}

fn section_word(word: &[u8]) -> Option<SectionWord>
    ensures { result ≡ section_word word.now }
{
    if is(word, b"attributes") {
        Some(SectionWord::Attributes)
    } else if is(word, b"params") {
        Some(SectionWord::Params)
    } else if is(word, b"meta") {
        Some(SectionWord::Meta)
    } else if is(word, b"utilization") {
        Some(SectionWord::Utilization)
    } else if is(word, b"operations") {
        Some(SectionWord::Operations)
    } else if is(word, b"op") {
        Some(SectionWord::Op)
    } else {
        None
    }
}

fn allows(owner: Owner, section: SectionWord) -> bool
    ensures { result ≡ allows_section owner section }
{
    match (owner, section) {
        (Owner::Node, SectionWord::Attributes | SectionWord::Utilization) => true,
        (Owner::Node, _) => false,
        (Owner::Primitive, SectionWord::Attributes) => false,
        (Owner::Primitive, _) => true,
        (_, SectionWord::Params | SectionWord::Meta) => true,
        (_, _) => false,
    }
}

fn allowed(owner: Owner, section: Option<SectionWord>) -> Option<SectionWord>
    ensures { result ≡ allowed owner section }
{
    match section {
        Some(section) => {
            if allows(owner, section) {
                Some(section)
            } else {
                None
            }
        }
        None => None,
    }
}

/// The section that a word begins in a statement.
#[tactic(auto, unfolding(crate::specs::Sections::section_of))]
fn section_of(owner: Owner, word: &[u8]) -> Option<SectionWord>
    ensures { result ≡ section_of owner word.now }
{
    allowed(owner, section_word(word))
}

/// Whether a word begins a section in a statement.
pub fn is_section(owner: Owner, word: &Name) -> bool
    ensures { result ≡ is_section owner word.now }
{
    section_of(owner, word.bytes()).is_some()
}

/// How many words stand before the next section word.
fn before_section(owner: Owner, words: &[Name]) -> usize
    ensures within { result ≤ length words.now }
    ensures own { (cut_into_sections owner false words.now).0 ≡ take result words.now }
    ensures rest { cut_into_sections owner false (drop result words.now) ≡ ([], (cut_into_sections owner false words.now).1) }
{
    let next = words.iter().position(|word| is_section(owner, word));
    next.unwrap_or(words.len())
}

/// How many words stand before the next section word, where the first one is a name, whatever it is.
fn named_before_section(owner: Owner, words: &[Name]) -> usize
    ensures within { result ≤ length words.now }
    ensures own { (cut_into_sections owner true words.now).0 ≡ take result words.now }
    ensures rest { cut_into_sections owner false (drop result words.now) ≡ ([], (cut_into_sections owner true words.now).1) }
{
    match words {
        [_, rest @ ..] => 1 + before_section(owner, rest),
        [] => 0,
    }
}

fn takes_name(section: SectionWord) -> bool
    ensures { result ≡ takes_name (Some section) }
{
    matches!(section, SectionWord::Op)
}

/// How many words belong to a section, of those after its word.
fn count_own(owner: Owner, section: SectionWord, words: &[Name]) -> usize
    ensures within { result ≤ length words.now }
    ensures own { (cut_into_sections owner (takes_name (Some section)) words.now).0 ≡ take result words.now }
    ensures rest { cut_into_sections owner false (drop result words.now) ≡ ([], (cut_into_sections owner (takes_name (Some section)) words.now).1) }
{
    if takes_name(section) {
        named_before_section(owner, words)
    } else {
        before_section(owner, words)
    }
}

fn place_of(owner: Owner, section: SectionWord) -> Place
    ensures { result ≡ place_of owner section }
{
    match (owner, section) {
        (Owner::Node, SectionWord::Attributes) => Place::NodeAttributes,
        (Owner::Primitive, SectionWord::Meta) => Place::PrimitiveMeta,
        (Owner::Primitive, _) => Place::PrimitivePlain,
        (Owner::Group, SectionWord::Meta) => Place::LeafMeta,
        (Owner::Clone, SectionWord::Meta) => Place::CloneMeta,
        (Owner::Ms, SectionWord::Meta) => Place::MsMeta,
        (_, _) => Place::Plain,
    }
}

/// Whether a section may follow those before it.
fn may_follow(owner: Owner, before: &Sections, section: SectionWord) -> bool
    ensures { result ≡ may_follow owner before.now section }
{
    match (owner, section) {
        (Owner::Node, SectionWord::Attributes) => {
            before.attributes.is_empty() && before.utilization.is_empty()
        }
        (Owner::Node, SectionWord::Utilization) => before.utilization.is_empty(),
        (_, _) => true,
    }
}

fn add_words(
    alloc: Global,
    place: Place,
    sections: &mut Sections,
    section: SectionWord,
    words: &[Name],
) -> Result<(), Stop>
    ensures { GivesInLine (λ _. sections.new) result (with_words place sections.old section words.now) }
{
    match section {
        SectionWord::Attributes => add_section(alloc, place, &mut sections.attributes, words),
        SectionWord::Params => add_section(alloc, place, &mut sections.params, words),
        SectionWord::Meta => add_section(alloc, place, &mut sections.meta, words),
        SectionWord::Utilization => add_section(alloc, place, &mut sections.utilization, words),
        SectionWord::Operations => add_section(alloc, place, &mut sections.operations, words),
        SectionWord::Op => {
            let operation = operation_of(alloc, sections.ops.as_slice(), words)?;
            sections.ops.push(operation)?;
            Ok(())
        }
    }
}

/// Adds the words of one more section.
#[tactic(auto, unfolding(crate::specs::Sections::with_part))]
fn add_part(
    alloc: Global,
    owner: Owner,
    sections: &mut Sections,
    section: SectionWord,
    words: &[Name],
) -> Result<(), Stop>
    ensures { GivesInLine (λ _. sections.new) result (with_part owner sections.old (section, words.now)) }
{
    if !may_follow(owner, sections, section) {
        return Err(Stop::Cause(ParseCause::ExtraWord));
    }
    add_words(alloc, place_of(owner, section), sections, section, words)
}

/// Adds the sections that some words are.
fn add_sections(
    alloc: Global,
    owner: Owner,
    sections: &mut Sections,
    words: &[Name],
) -> Result<(), Stop>
    ensures { GivesInLine (λ _. sections.new) result (sections_from owner sections.old words.now) }
{
    let mut rest = words;
    while let [word, after @ ..] = rest {
        let Some(section) = section_of(owner, word.bytes()) else {
            let place = place_of(owner, SectionWord::Params);
            return Err(Stop::Cause(stray(place, word.bytes())));
        };
        let (own, next) = after.split_at(count_own(owner, section, after));
        add_part(alloc, owner, sections, section, own)?;
        rest = next;
    }
    Ok(())
}

fn no_sections(alloc: Global) -> Sections
    ensures { result ≡ no_sections }
{
    Sections {
        attributes: KeyedPairs::new(alloc),
        params: KeyedPairs::new(alloc),
        meta: KeyedPairs::new(alloc),
        utilization: KeyedPairs::new(alloc),
        operations: KeyedPairs::new(alloc),
        ops: Listed::new(alloc),
    }
}

/// The sections that the words of a statement end with.
pub fn sections_at(alloc: Global, owner: Owner, words: &[Name]) -> Result<Sections, Stop>
    ensures { GivesInLine (λ sections. sections) result (sections_at owner words.now) }
{
    let mut sections = no_sections(alloc);
    let added = add_sections(alloc, owner, &mut sections, words);
    done(sections, added)
}
