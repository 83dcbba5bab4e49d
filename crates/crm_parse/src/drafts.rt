//! The statements before a line, and the keys that their settings give.

ghost use Rattle.std.specs.Prelude.{◌≡◌, ◌++◌, ◌∷◌, [], IfOk};
ghost use Rattle.crm_parse.specs.Settings.{set_before};

use crate::SettingsWord;
use crate::draft::DraftStatement;
use crate::setting_keys::SettingKeys;
use crm_lex::{Name, NoMemory, is};
use listed::Listed;
use std::alloc::Global;
use std::marker::Model;

/// Statements in the order of the text, with the keys that their settings give. Contracts see the statements.
#[derive(Drop)]
pub(crate) struct Drafts {
    statements: Listed<DraftStatement>,
    keys: SettingKeys,
}

impl Model for Drafts {
    ghost use Rattle.std.specs.Prelude.{List};
    ghost use Rattle.crm_parse.specs.declared.draft.DraftStatement.{DraftStatement};
    ghost use Rattle.crm_parse.specs.Inner.GivenKeys.{HasSettingsOf};

    ghost Value = { List DraftStatement };

    ghost view = { λ drafts. drafts.statements };

    ghost invariant = { λ drafts. HasSettingsOf drafts.keys drafts.statements };
}

impl Drafts {
    /// No statements.
    pub fn new(alloc: Global) -> Self
        ensures { result ≡ [] }
    {
        Drafts {
            statements: Listed::new(alloc),
            keys: SettingKeys::new(alloc),
        }
    }

    /// Whether a statement of the same settings gives the key, which may not be given again.
    pub fn set_before(&self, what: SettingsWord, key: &Name) -> bool
        ensures { result ≡ set_before what self.now key.now }
    {
        !is(key.bytes(), b"$id") && self.keys.gives(what, key)
    }

    /// The statements, and one more at the end.
    pub fn with(self, alloc: Global, statement: DraftStatement) -> Result<Drafts, NoMemory>
        ensures { IfOk result (λ more. more ≡ self ++ statement ∷ []) }
    {
        let Drafts {
            mut statements,
            mut keys,
        } = self;
        statements.push(statement)?;
        if let Some(last) = statements.as_slice().last() {
            keys.add(alloc, last)?;
        }
        Ok(Drafts { statements, keys })
    }

    /// Lends the statements.
    pub fn as_slice(&self) -> &[DraftStatement]
        ensures { result.now ≡ self.now }
    {
        self.statements.as_slice()
    }

    /// The statements as a `Vec`.
    pub fn into_vec(self) -> Vec<DraftStatement>
        ensures { result.items ≡ self }
    {
        self.statements.into_vec()
    }
}
