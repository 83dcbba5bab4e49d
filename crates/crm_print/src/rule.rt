//! Locations, and their rules.

ghost use Rattle.std.specs.Prelude.{◌≡◌, ◌++◌, ◌∷◌, [], OnOk, codes, map};
ghost use Rattle.std.specs.List.{flat_map};
ghost use Rattle.score.specs.ScoreText.{score_text};
ghost use Rattle.crm_print.specs.Quoting.{spaced, items_line};
ghost use Rattle.crm_print.specs.Items.{discovery, location_items, rule, with_colon};

use crate::item::{push_noted, push_noted_role, push_with_colon, push_word, push_words};
use crate::quoting::push_quoted;
use crm_lex::{Name, NoMemory};
use crm_parse::{RoleWord, RuleForm};
use score::Score;

/// A score before a colon.
pub(crate) fn push_score(text: &mut Vec<u8>, score: Score) -> Result<(), NoMemory>
    ensures { OnOk result (text.new.items ≡ text.old.items ++ spaced (with_colon (score_text score))) }
{
    let mut buffer = [0; 12];
    let length = score.write_to(&mut buffer);
    push_with_colon(text, &buffer[..length])
}

#[tactic(auto, using(crate::proofs::FormLines::spaced_append))]
fn push_rule(text: &mut Vec<u8>, form: &RuleForm) -> Result<(), NoMemory>
    ensures { OnOk result (text.new.items ≡ text.old.items ++ flat_map spaced (rule form.now)) }
{
    push_word(text, b"rule")?;
    push_noted(text, b"$id=", &form.id)?;
    push_noted_role(text, b"$role=", form.role)?;
    push_score(text, form.score)?;
    push_words(text, form.words.as_slice())
}

pub(crate) fn push_rules(text: &mut Vec<u8>, rules: &[RuleForm]) -> Result<(), NoMemory>
    ensures { OnOk result (text.new.items ≡ text.old.items ++ flat_map spaced (flat_map rule rules.now)) }
{
    for rule in rules {
        push_rule(text, rule)?;
    }
    Ok(())
}

fn push_discovery(text: &mut Vec<u8>, everywhere: bool) -> Result<(), NoMemory>
    ensures { OnOk result (text.new.items ≡ text.old.items ++ flat_map spaced (discovery everywhere)) }
{
    if everywhere {
        push_word(text, b"resource-discovery=always")?;
    }
    Ok(())
}

/// What a location says before its score or its rules.
#[tactic(auto, using(crate::proofs::FormLines::spaced_append))]
pub(crate) fn push_located(
    text: &mut Vec<u8>,
    id: &Name,
    resource: &Name,
    role: Option<RoleWord>,
    discovery: bool,
) -> Result<(), NoMemory>
    ensures { OnOk result (text.new.items ≡ text.old.items ++ items_line (location_items id.now resource.now role discovery)) }
{
    push_quoted(text, b"location")?;
    push_word(text, id.bytes())?;
    push_word(text, resource.bytes())?;
    push_noted_role(text, b"role=", role)?;
    push_discovery(text, discovery)
}
