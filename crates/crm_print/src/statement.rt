//! The canonical line of a statement.

ghost use Rattle.std.specs.Prelude.{◌≡◌, ◌++◌, ◌∷◌, [], OnOk, codes, map};
ghost use Rattle.std.specs.List.{flat_map};
ghost use Rattle.crm_parse.specs.declared.form.Form.TheVariants as form;
ghost use Rattle.crm_parse.specs.WordTexts.{bool_text};
ghost use Rattle.crm_print.specs.Quoting.{items_line, spaced};
ghost use Rattle.crm_print.specs.Items.{labelled, operation_items, section, step, with_meta, word};
ghost use Rattle.crm_print.specs.Text.{canonical_line};

use crate::item::{
    push_given, push_labelled, push_noted, push_operations, push_pairs, push_section,
    push_with_colon, push_word, push_words,
};
use crate::keyword::{bool_text, clone_word, kind_text, settings_text};
use crate::order::{push_side, push_steps};
use crate::quoting::push_quoted;
use crate::rule::{push_located, push_rules, push_score};
use crm_lex::{Name, NoMemory};
use crm_parse::{Form, KindWord, Kv, Operation, OrderStep, SettingsWord, Side};
use score::Score;

/// The first word of a line and two names.
fn push_named(text: &mut Vec<u8>, keyword: &[u8], id: &Name, name: &Name) -> Result<(), NoMemory>
    ensures { OnOk result (text.new.items ≡ text.old.items ++ items_line (word keyword.now ∷ word id.now ∷ word name.now ∷ [])) }
{
    push_quoted(text, keyword)?;
    push_word(text, id.bytes())?;
    push_word(text, name.bytes())
}

#[tactic(auto, using(crate::proofs::FormLines::spaced_append))]
fn push_node(
    text: &mut Vec<u8>,
    id: &Option<Name>,
    name: &Name,
    attributes: &[Kv],
    utilization: &[Kv],
) -> Result<(), NoMemory>
    ensures { OnOk result (text.new.items ≡ text.old.items ++ canonical_line (form.Node id.now name.now attributes.now utilization.now)) }
{
    push_quoted(text, b"node")?;
    push_given(text, id)?;
    push_word(text, name.bytes())?;
    push_section(text, b"attributes", attributes)?;
    push_section(text, b"utilization", utilization)
}

/// What stands behind the members of a group or the child of a clone.
#[tactic(auto, using(crate::proofs::FormLines::spaced_append))]
fn push_meta(
    text: &mut Vec<u8>,
    description: &Option<Name>,
    params: &[Kv],
    meta: &[Kv],
) -> Result<(), NoMemory>
    ensures { OnOk result (text.new.items ≡ text.old.items ++ flat_map spaced (with_meta description.now params.now meta.now)) }
{
    push_noted(text, b"description=", description)?;
    push_section(text, b"params", params)?;
    push_section(text, b"meta", meta)
}

/// What stands behind the meta attributes of a primitive.
#[tactic(auto, using(crate::proofs::FormLines::spaced_append))]
fn push_works(
    text: &mut Vec<u8>,
    utilization: &[Kv],
    operations: &[Kv],
    ops: &[Operation],
) -> Result<(), NoMemory>
    ensures { OnOk result (
        text.new.items ≡ text.old.items ++ flat_map spaced (
        section (codes "utilization") utilization.now ++ (section (codes "operations") operations.now ++ flat_map operation_items ops.now))) }
{
    push_section(text, b"utilization", utilization)?;
    push_section(text, b"operations", operations)?;
    push_operations(text, ops)
}

fn push_members(text: &mut Vec<u8>, id: &Name, members: &[Name]) -> Result<(), NoMemory>
    ensures { OnOk result (text.new.items ≡ text.old.items ++ items_line (word (codes "group") ∷ word id.now ∷ map word members.now)) }
{
    push_quoted(text, b"group")?;
    push_word(text, id.bytes())?;
    push_words(text, members)
}

fn push_colocation(
    text: &mut Vec<u8>,
    id: &Name,
    score: Score,
    dependent: &Side,
    primary: &Side,
) -> Result<(), NoMemory>
    ensures { OnOk result (text.new.items ≡ text.old.items ++ canonical_line (form.Colocation id.now score dependent.now primary.now)) }
{
    push_quoted(text, b"colocation")?;
    push_word(text, id.bytes())?;
    push_score(text, score)?;
    push_side(text, dependent)?;
    push_side(text, primary)
}

/// What stands behind the kind of an order.
#[tactic(auto, using(crate::proofs::FormLines::spaced_last))]
fn push_chain(text: &mut Vec<u8>, steps: &[OrderStep], symmetrical: bool) -> Result<(), NoMemory>
    ensures { OnOk result (
        text.new.items ≡ text.old.items ++ flat_map spaced (map step steps.now ++ labelled (codes "symmetrical=") (bool_text symmetrical) ∷ [])) }
{
    push_steps(text, steps)?;
    push_labelled(text, b"symmetrical=", bool_text(symmetrical))
}

fn push_order(
    text: &mut Vec<u8>,
    id: &Name,
    kind: KindWord,
    steps: &[OrderStep],
    symmetrical: bool,
) -> Result<(), NoMemory>
    ensures { OnOk result (text.new.items ≡ text.old.items ++ canonical_line (form.Order id.now kind steps.now symmetrical)) }
{
    push_quoted(text, b"order")?;
    push_word(text, id.bytes())?;
    push_with_colon(text, kind_text(kind))?;
    push_chain(text, steps, symmetrical)
}

#[tactic(auto, using(crate::proofs::FormLines::spaced_append))]
fn push_settings(
    text: &mut Vec<u8>,
    what: SettingsWord,
    set: &Option<Name>,
    pairs: &[Kv],
) -> Result<(), NoMemory>
    ensures { OnOk result (text.new.items ≡ text.old.items ++ canonical_line (form.Settings what set.now pairs.now)) }
{
    push_quoted(text, settings_text(what))?;
    push_given(text, set)?;
    push_pairs(text, pairs)
}

fn push_kept(text: &mut Vec<u8>, words: &[Name]) -> Result<(), NoMemory>
    ensures { OnOk result (text.new.items ≡ text.old.items ++ canonical_line (form.Kept words.now)) }
{
    match words {
        [] => Ok(()),
        [first, others @ ..] => {
            push_quoted(text, first.bytes())?;
            push_words(text, others)
        }
    }
}

/// Writes the canonical line of a statement, without its line feed.
#[tactic(auto, using(crate::proofs::FormLines::spaced_append))]
pub(crate) fn push_form(text: &mut Vec<u8>, form: &Form) -> Result<(), NoMemory>
    ensures { OnOk result (text.new.items ≡ text.old.items ++ canonical_line form.now) }
{
    match form {
        Form::Node {
            id,
            name,
            attributes,
            utilization,
        } => push_node(
            text,
            id,
            name,
            attributes.as_slice(),
            utilization.as_slice(),
        ),
        Form::Primitive {
            id,
            agent,
            description,
            params,
            meta,
            utilization,
            operations,
            ops,
        } => {
            push_named(text, b"primitive", id, agent)?;
            push_meta(text, description, params.as_slice(), meta.as_slice())?;
            push_works(
                text,
                utilization.as_slice(),
                operations.as_slice(),
                ops.as_slice(),
            )
        }
        Form::Group {
            id,
            members,
            description,
            params,
            meta,
        } => {
            push_members(text, id, members.as_slice())?;
            push_meta(text, description, params.as_slice(), meta.as_slice())
        }
        Form::Cloned {
            id,
            child,
            ms,
            description,
            params,
            meta,
        } => {
            push_named(text, clone_word(*ms), id, child)?;
            push_meta(text, description, params.as_slice(), meta.as_slice())
        }
        Form::Location {
            id,
            resource,
            role,
            discovery,
            score,
            node,
        } => {
            push_located(text, id, resource, *role, *discovery)?;
            push_score(text, *score)?;
            push_word(text, node.bytes())
        }
        Form::RuledLocation {
            id,
            resource,
            role,
            discovery,
            rules,
        } => {
            push_located(text, id, resource, *role, *discovery)?;
            push_rules(text, rules.as_slice())
        }
        Form::Colocation {
            id,
            score,
            dependent,
            primary,
        } => push_colocation(text, id, *score, dependent, primary),
        Form::Order {
            id,
            kind,
            steps,
            symmetrical,
        } => push_order(text, id, *kind, steps.as_slice(), *symmetrical),
        Form::Settings { what, set, pairs } => push_settings(text, *what, set, pairs.as_slice()),
        Form::Kept { words } => push_kept(text, words.as_slice()),
    }
}
