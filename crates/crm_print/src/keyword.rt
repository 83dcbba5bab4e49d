//! The words that are written for values of a few kinds.

ghost use Rattle.std.specs.Prelude.{◌≡◌};
ghost use Rattle.crm_parse.specs.WordTexts.{action_word_text, bool_text, clone_word, kind_text, role_text, settings_text};

use crm_parse::{ActionWord, KindWord, RoleWord, SettingsWord};

pub(crate) fn role_text(role: RoleWord) -> &'static [u8]
    ensures { result.now ≡ role_text role }
{
    match role {
        RoleWord::Started => b"Started",
        RoleWord::Promoted => b"Promoted",
    }
}

pub(crate) fn kind_text(kind: KindWord) -> &'static [u8]
    ensures { result.now ≡ kind_text kind }
{
    match kind {
        KindWord::Mandatory => b"Mandatory",
        KindWord::Optional => b"Optional",
        KindWord::Serialize => b"Serialize",
    }
}

pub(crate) fn action_text(action: ActionWord) -> &'static [u8]
    ensures { result.now ≡ action_word_text action }
{
    match action {
        ActionWord::Start => b"start",
        ActionWord::Stop => b"stop",
        ActionWord::Promote => b"promote",
        ActionWord::Demote => b"demote",
    }
}

pub(crate) fn bool_text(yes: bool) -> &'static [u8]
    ensures { result.now ≡ bool_text yes }
{
    if yes { b"true" } else { b"false" }
}

pub(crate) fn clone_word(ms: bool) -> &'static [u8]
    ensures { result.now ≡ clone_word ms }
{
    if ms { b"ms" } else { b"clone" }
}

pub(crate) fn settings_text(what: SettingsWord) -> &'static [u8]
    ensures { result.now ≡ settings_text what }
{
    match what {
        SettingsWord::Property => b"property",
        SettingsWord::RscDefaults => b"rsc_defaults",
        SettingsWord::OpDefaults => b"op_defaults",
    }
}
