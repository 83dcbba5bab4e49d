//! The keys that the settings of some statements give.

ghost use Rattle.std.specs.Prelude.{◌≡◌, ◌||◌, ℕ, List, false, OnOk};
ghost use Rattle.std.specs.List.{list_any};
ghost use Rattle.crm_lex.specs.Names.{is};
ghost use Rattle.crm_parse.specs.declared.words.SettingsWord.{SettingsWord as Kind};
ghost use Rattle.crm_parse.specs.Inner.GivenKeys.{gives, AddsSettings};
ghost use Rattle.crm_lex.specs.NameSets.{has_name};
ghost use Rattle.crm_parse.specs.Settings.{is_same_settings, sets};

use crate::draft::{Draft, DraftStatement};
use crate::{Form, Kv, SettingsWord};
use crm_lex::{Name, NameSet, NoMemory};
use std::alloc::Global;

/// A set of keys for each kind of settings.
#[derive(Drop)]
pub(crate) struct SettingKeys {
    property: NameSet,
    rsc_defaults: NameSet,
    op_defaults: NameSet,
}

/// Adds the keys of some pairs.
fn add_keys(alloc: Global, keys: &mut NameSet, pairs: &[Kv]) -> Result<(), NoMemory>
    ensures { OnOk result ((key : List ℕ) → has_name keys.new key ≡ (has_name keys.old key || list_any (λ pair. is pair.key key) pairs.now)) }
{
    for pair in pairs {
        keys.add(alloc, &pair.key)?;
    }
    Ok(())
}

fn is_same_settings(one: SettingsWord, other: SettingsWord) -> bool
    ensures { result ≡ is_same_settings one other }
{
    match (one, other) {
        (SettingsWord::Property, SettingsWord::Property) => true,
        (SettingsWord::RscDefaults, SettingsWord::RscDefaults) => true,
        (SettingsWord::OpDefaults, SettingsWord::OpDefaults) => true,
        (_, _) => false,
    }
}

/// The pairs that a statement gives to these settings.
fn given(what: SettingsWord, statement: &DraftStatement) -> &[Kv]
    ensures { (key : List ℕ) → list_any (λ pair. is pair.key key) result.now ≡ sets what key statement.now }
{
    match &statement.draft {
        Draft::Whole(
            Form::Settings {
                what: kind,
                pairs,
                ..
            },
        ) => {
            if is_same_settings(*kind, what) {
                pairs.as_slice()
            } else {
                &[]
            }
        }
        _ => &[],
    }
}

impl SettingKeys {
    /// No keys.
    pub fn new(alloc: Global) -> Self
        ensures { (what : Kind) (key : List ℕ) → gives result what key ≡ false }
    {
        SettingKeys {
            property: NameSet::new(alloc),
            rsc_defaults: NameSet::new(alloc),
            op_defaults: NameSet::new(alloc),
        }
    }

    /// Whether the key is one of these settings.
    pub fn gives(&self, what: SettingsWord, key: &Name) -> bool
        ensures { result ≡ gives self.now what key.now }
    {
        match what {
            SettingsWord::Property => self.property.has(key),
            SettingsWord::RscDefaults => self.rsc_defaults.has(key),
            SettingsWord::OpDefaults => self.op_defaults.has(key),
        }
    }

    /// Adds the keys that a statement gives.
    pub fn add(&mut self, alloc: Global, statement: &DraftStatement) -> Result<(), NoMemory>
        ensures { OnOk result (AddsSettings self.old self.new statement.now) }
    {
        let property = given(SettingsWord::Property, statement);
        add_keys(alloc, &mut self.property, property)?;
        let rsc_defaults = given(SettingsWord::RscDefaults, statement);
        add_keys(alloc, &mut self.rsc_defaults, rsc_defaults)?;
        let op_defaults = given(SettingsWord::OpDefaults, statement);
        add_keys(alloc, &mut self.op_defaults, op_defaults)?;
        Ok(())
    }
}
