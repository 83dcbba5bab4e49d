//! Pairs with the set of their keys.

ghost use Rattle.std.specs.Prelude.{◌≡◌, ◌&&◌, ◌||◌, ◌++◌, ◌∷◌, [], OnOk};
ghost use Rattle.std.specs.List.{list_any};
ghost use Rattle.crm_parse.specs.Keys.{is_clone_meta, is_promoted_max};
ghost use Rattle.crm_parse.specs.Pairs.{is_same_key, repeats};
ghost use Rattle.crm_parse.specs.Sections.{has_no_pairs};

use crate::Kv;
use crate::keys::{is_clone_meta, is_promoted_max};
use crate::place::Place;
use crm_lex::{Name, NameSet, NoMemory, is};
use listed::Listed;
use std::alloc::Global;
use std::marker::Model;

/// The pairs of a section in their order, with the set of their keys beside them. Contracts see the pairs.
#[derive(Drop)]
pub(crate) struct KeyedPairs {
    pairs: Vec<Kv>,
    keys: NameSet,
    /// Whether a key says how many copies may be promoted.
    has_promoted_max: bool,
}

impl Model for KeyedPairs {
    ghost use Rattle.std.specs.Prelude.{◌≡◌, List};
    ghost use Rattle.std.specs.List.{list_any};
    ghost use Rattle.crm_parse.specs.declared.pair.Kv.{Kv};
    ghost use Rattle.crm_parse.specs.Keys.{is_promoted_max};
    ghost use Rattle.crm_parse.specs.Inner.KeySets.{HasKeysOf};

    ghost Value = { List Kv };

    ghost view = { λ keyed. keyed.pairs.items };

    ghost invariant = { λ keyed. HasKeysOf keyed.keys keyed.pairs.items × (keyed.has_promoted_max ≡ list_any (λ pair. is_promoted_max pair.key) keyed.pairs.items) };
}

/// Whether the key is another name of one that is there.
fn is_other_name(place: Place, key: &Name, has_promoted_max: bool) -> bool
    ensures { result ≡ (is_clone_meta place && is_promoted_max key.now && has_promoted_max) }
{
    is_clone_meta(place) && is_promoted_max(key.bytes()) && has_promoted_max
}

fn or_promoted_max(before: bool, key: &[u8]) -> bool
    ensures { result ≡ (before || is_promoted_max key.now) }
{
    before || is_promoted_max(key)
}

impl KeyedPairs {
    /// No pairs.
    pub fn new(alloc: Global) -> Self
        ensures { result ≡ [] }
    {
        KeyedPairs {
            pairs: Vec::new(alloc),
            keys: NameSet::new(alloc),
            has_promoted_max: false,
        }
    }

    fn has_key(&self, place: Place, key: &Name) -> bool
        ensures { result ≡ list_any (λ pair. is_same_key place pair.key key.now) self.now }
    {
        self.keys.has(key) || is_other_name(place, key, self.has_promoted_max)
    }

    /// Whether one of the pairs has the key, which may not be given again.
    pub fn repeats(&self, place: Place, key: &Name) -> bool
        ensures { result ≡ repeats place self.now key.now }
    {
        !is(key.bytes(), b"$id") && self.has_key(place, key)
    }

    /// Adds a pair at the end.
    pub fn push(&mut self, alloc: Global, pair: Kv) -> Result<(), NoMemory>
        ensures { OnOk result (self.new ≡ self.old ++ pair ∷ []) }
    {
        let has_promoted_max = or_promoted_max(self.has_promoted_max, pair.key.bytes());
        // Room for the pair comes first, so that nothing fails between the changes.
        self.pairs.reserve(1)?;
        self.keys.add(alloc, &pair.key)?;
        self.pairs.push_reserved(pair);
        self.has_promoted_max = has_promoted_max;
        Ok(())
    }

    /// Whether there is no pair.
    pub fn is_empty(&self) -> bool
        ensures { result ≡ has_no_pairs self.now }
    {
        self.pairs.is_empty()
    }

    /// The pairs.
    pub fn into_list(self) -> Listed<Kv>
        ensures { result ≡ self }
    {
        Listed::from(self.pairs)
    }
}
