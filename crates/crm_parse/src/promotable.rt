//! The resources that have a promoted role.

ghost use Rattle.std.specs.Prelude.{◌≡◌, ◌++◌, ◌∷◌, [], IfOk};
ghost use Rattle.std.specs.List.{list_any};
ghost use Rattle.crm_lex.specs.Names.{is};

use crm_lex::{Name, NameSet, NoMemory};
use listed::Listed;
use std::alloc::Global;
use std::marker::Model;

/// Names of resources in the order of the text, with the set of them. Contracts see the names in order.
#[derive(Drop)]
pub(crate) struct Promotable {
    names: Listed<Name>,
    known: NameSet,
}

impl Model for Promotable {
    ghost use Rattle.std.specs.Prelude.{List, ℕ};
    ghost use Rattle.crm_parse.specs.Inner.KeySets.{HasNamesOf};

    ghost Value = { List (List ℕ) };

    ghost view = { λ promotable. promotable.names };

    ghost invariant = { λ promotable. HasNamesOf promotable.known promotable.names };
}

impl Promotable {
    /// No names.
    pub fn new(alloc: Global) -> Self
        ensures { result ≡ [] }
    {
        Promotable {
            names: Listed::new(alloc),
            known: NameSet::new(alloc),
        }
    }

    /// Whether the name is one of them.
    pub fn has(&self, name: &Name) -> bool
        ensures { result ≡ list_any (λ each. is each name.now) self.now }
    {
        self.known.has(name)
    }

    /// The names, and one more at the end.
    pub fn with(self, alloc: Global, name: &Name) -> Result<Promotable, NoMemory>
        ensures { IfOk result (λ more. more ≡ self ++ name.now ∷ []) }
    {
        let Promotable {
            mut names,
            mut known,
        } = self;
        known.add(alloc, name)?;
        names.push(Name::from_bytes(alloc, name.bytes())?)?;
        Ok(Promotable { names, known })
    }
}
