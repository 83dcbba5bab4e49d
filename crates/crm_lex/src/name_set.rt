ghost use Rattle.std.specs.Prelude.{◌≡◌, [], OnOk, OnErr};
ghost use Rattle.crm_lex.specs.NameSets.{has_name, IsWithName};

use crate::Name;
use faults::NoMemory;
use std::alloc::Global;
use std::collections::BTreeSet;
use std::marker::Model;

/// Names, each once. What contracts say of them is which names they have.
#[derive(Drop)]
pub struct NameSet {
    names: BTreeSet<Name>,
}

impl Model for NameSet {
    ghost use Rattle.std.specs.Prelude.{List, ℕ};

    ghost Value = { List (List ℕ) };

    ghost view = { λ set. set.names.keys };
}

impl NameSet {
    /// No names. It takes no memory.
    pub fn new(alloc: Global) -> Self
        ensures { result ≡ [] }
    {
        NameSet {
            names: BTreeSet::new(alloc),
        }
    }

    /// Whether the name was added. The time grows with the logarithm of how many there are.
    pub fn has(&self, name: &Name) -> bool
        ensures { result ≡ has_name self.now name.now }
    {
        self.names.contains(name)
    }

    /// Adds a name. Adding one that is there changes no answer.
    pub fn add(&mut self, alloc: Global, name: &Name) -> Result<(), NoMemory>
        ensures ok { OnOk result (IsWithName self.old name.now self.new) }
        ensures err { OnErr result (self.new ≡ self.old) }
    {
        let name = Name::from_bytes(alloc, name.bytes())?;
        self.names.insert(name)?;
        Ok(())
    }
}
