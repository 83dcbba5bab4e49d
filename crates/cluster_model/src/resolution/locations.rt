//! How much resources want to be on nodes.

ghost use Rattle.std.specs.Prelude.{◌≡◌, ◌++◌, map, IfOk, OnOk};
ghost use Rattle.cluster_model.specs.Inner.Locations.{location_in, locations_of, rule_location_of, rule_locations_in, rule_locations_of};
ghost use Rattle.cluster_model.specs.Locations.{role_of_word, role_written};

use crate::resolution::copies::{copy_name, copy_rule};
use crate::resolution::directory::Directory;
use cluster_types::{Location, NoMemory, Role, RuleLocation};
use crm_lex::Name;
use crm_parse::{Form, RoleWord, RuleForm, Statement};
use listed::Listed;
use std::alloc::Global;

pub fn role_of_word(word: RoleWord) -> Role
    ensures { result ≡ role_of_word word }
{
    match word {
        RoleWord::Started => Role::Started,
        RoleWord::Promoted => Role::Promoted,
    }
}

/// A role that isn't written is Started.
pub fn role_written(written: Option<RoleWord>) -> Role
    ensures { result ≡ role_written written }
{
    role_of_word(written.unwrap_or(RoleWord::Started))
}

fn add_location(
    alloc: Global,
    directory: &Directory<'_>,
    locations: &mut Listed<Location>,
    form: &Form,
) -> Result<(), NoMemory>
    ensures { OnOk result (locations.new ≡ locations.old ++ location_in directory.now form.now) }
{
    let Form::Location {
        id,
        resource,
        role,
        score,
        node,
        ..
    } = form
    else {
        return Ok(());
    };
    let leaf = directory.first_named(resource);
    let location = Location {
        id: copy_name(alloc, id)?,
        leaf,
        role: role_written(*role),
        score: *score,
        node: directory.node_named(node),
    };
    Ok(locations.push(location)?)
}

/// The locations, in the order of the text.
pub fn locations_of(
    alloc: Global,
    directory: &Directory<'_>,
    statements: &[Statement],
) -> Result<Listed<Location>, NoMemory>
    ensures { IfOk result (λ locations. locations ≡ locations_of directory.now statements.now) }
{
    let mut locations = Listed::new(alloc);
    for statement in statements {
        add_location(alloc, directory, &mut locations, &statement.form)?;
    }
    Ok(locations)
}

fn rule_location_of(
    alloc: Global,
    directory: &Directory<'_>,
    id: &Name,
    resource: &Name,
    written: Option<RoleWord>,
    rule: &RuleForm,
) -> Result<RuleLocation, NoMemory>
    ensures { IfOk result (λ location. location ≡ rule_location_of directory.now id.now resource.now written rule.now) }
{
    Ok(RuleLocation {
        id: copy_name(alloc, id)?,
        leaf: directory.first_named(resource),
        role: role_written(rule.role.or(written)),
        score: rule.score,
        rule: copy_rule(alloc, &rule.rule)?,
    })
}

fn add_rules(
    alloc: Global,
    directory: &Directory<'_>,
    locations: &mut Listed<RuleLocation>,
    id: &Name,
    resource: &Name,
    written: Option<RoleWord>,
    rules: &[RuleForm],
) -> Result<(), NoMemory>
    ensures { OnOk result (locations.new ≡ locations.old ++ map (rule_location_of directory.now id.now resource.now written) rules.now) }
{
    for rule in rules {
        let location = rule_location_of(alloc, directory, id, resource, written, rule)?;
        locations.push(location)?;
    }
    Ok(())
}

fn add_rule_locations(
    alloc: Global,
    directory: &Directory<'_>,
    locations: &mut Listed<RuleLocation>,
    form: &Form,
) -> Result<(), NoMemory>
    ensures { OnOk result (locations.new ≡ locations.old ++ rule_locations_in directory.now form.now) }
{
    let Form::RuledLocation {
        id,
        resource,
        role,
        rules,
        ..
    } = form
    else {
        return Ok(());
    };
    let rules = rules.as_slice();
    add_rules(alloc, directory, locations, id, resource, *role, rules)
}

/// The rules of locations, in the order of the text.
pub fn rule_locations_of(
    alloc: Global,
    directory: &Directory<'_>,
    statements: &[Statement],
) -> Result<Listed<RuleLocation>, NoMemory>
    ensures { IfOk result (λ locations. locations ≡ rule_locations_of directory.now statements.now) }
{
    let mut locations = Listed::new(alloc);
    for statement in statements {
        add_rule_locations(alloc, directory, &mut locations, &statement.form)?;
    }
    Ok(locations)
}
