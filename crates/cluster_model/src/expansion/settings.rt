//! What holds of the whole cluster.

ghost use Rattle.std.specs.Prelude.{◌≡◌, ◌≤◌, ◌<◌, ◌+◌, if◌then◌else◌, length};
ghost use Rattle.crm_parse.specs.Values.{bool_of};
ghost use Rattle.cluster_model.specs.Inner.Metas.{no_meta};
ghost use Rattle.cluster_model.specs.Settings.{count_nodes, defaults_in, node_names_in, option_as, option_given, properties_in};
ghost use Rattle.cluster_model.specs.Inner.Settings.{defaults_of};

use crate::expansion::meta::{Meta, meta_of, no_meta, or_meta};
use crate::values::bool_at;
use crm_parse::{Form, Kv, SettingsWord, Statement};

/// The pairs of the options of the cluster that a statement sets: none where it sets no such options.
pub fn properties_in(form: &Form) -> &[Kv]
    ensures { result.now ≡ properties_in form.now }
{
    match form {
        Form::Settings {
            what: SettingsWord::Property,
            pairs,
            ..
        } => pairs.as_slice(),
        _ => &[],
    }
}

/// An option that is yes or no, where a statement gives it.
fn flag_in(key: &[u8], statements: &[Statement]) -> Option<bool>
    ensures { result ≡ option_as bool_of key.now statements.now }
{
    for statement in statements {
        if let Some(flag) = bool_at(key, properties_in(&statement.form)) {
            return Some(flag);
        }
    }
    None
}

/// An option that is yes or no.
pub fn option_given(key: &[u8], default: bool, statements: &[Statement]) -> bool
    ensures { result ≡ option_given key.now default statements.now }
{
    flag_in(key, statements).unwrap_or(default)
}

fn defaults_in(form: &Form) -> &[Kv]
    ensures { result.now ≡ defaults_in form.now }
{
    match form {
        Form::Settings {
            what: SettingsWord::RscDefaults,
            pairs,
            ..
        } => pairs.as_slice(),
        _ => &[],
    }
}

/// The defaults of resources.
pub fn defaults_of(statements: &[Statement]) -> Meta
    ensures { result ≡ defaults_of statements.now }
{
    let mut found = no_meta();
    for statement in statements {
        found = or_meta(found, meta_of(defaults_in(&statement.form)));
    }
    found
}

fn is_node(form: &Form) -> bool
    ensures { (if result then 1 else 0) ≡ length (node_names_in form.now) }
{
    matches!(form, Form::Node { .. })
}

/// How many nodes there are with one more statement.
fn count_after(count: u32, form: &Form) -> u32
    requires { count < 1000000000 }
    ensures counted { result ≡ count + length (node_names_in form.now) }
    ensures few { result ≤ count + 1 }
{
    if is_node(form) { count + 1 } else { count }
}

/// How many nodes there are.
pub fn count_nodes(statements: &[Statement]) -> u32
    requires { length statements.now ≤ 1000000000 }
    ensures { result ≡ count_nodes statements.now }
{
    let mut count = 0;
    for statement in statements {
        count = count_after(count, &statement.form);
    }
    count
}
