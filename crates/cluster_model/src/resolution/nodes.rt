//! The nodes of a cluster.

ghost use Rattle.std.specs.Prelude.{◌≡◌, ◌++◌, map, IfOk, OnOk};
ghost use Rattle.cluster_model.specs.Nodes.{attribute_of, says_standby, node_in, node_of, nodes_by};

use crate::bool_at;
use crate::resolution::copies::copy_name;
use cluster_types::{NoMemory, Node};
use crm_lex::Name;
use crm_parse::{Form, Kv, Statement};
use date_rules::Pair;
use listed::Listed;
use std::alloc::Global;

fn attribute_of(alloc: Global, pair: &Kv) -> Result<Pair, NoMemory>
    ensures { IfOk result (λ attribute. attribute ≡ attribute_of pair.now) }
{
    Ok(Pair {
        name: copy_name(alloc, &pair.key)?,
        value: copy_name(alloc, &pair.value)?,
    })
}

fn attributes_of(alloc: Global, pairs: &[Kv]) -> Result<Listed<Pair>, NoMemory>
    ensures { IfOk result (λ attributes. attributes ≡ map attribute_of pairs.now) }
{
    let mut attributes = Listed::new(alloc);
    for pair in pairs {
        attributes.push(attribute_of(alloc, pair)?)?;
    }
    Ok(attributes)
}

fn is_standby(attributes: &[Kv]) -> bool
    ensures { result ≡ says_standby attributes.now }
{
    bool_at(b"standby", attributes).unwrap_or(false)
}

fn node_of(alloc: Global, name: &Name, attributes: &[Kv]) -> Result<Node, NoMemory>
    ensures { IfOk result (λ node. node ≡ node_of name.now attributes.now) }
{
    Ok(Node {
        name: copy_name(alloc, name)?,
        standby: is_standby(attributes),
        attributes: attributes_of(alloc, attributes)?,
    })
}

fn add_node(alloc: Global, nodes: &mut Listed<Node>, form: &Form) -> Result<(), NoMemory>
    ensures { OnOk result (nodes.new ≡ nodes.old ++ node_in form.now) }
{
    let Form::Node {
        name,
        attributes,
        ..
    } = form
    else {
        return Ok(());
    };
    let node = node_of(alloc, name, attributes.as_slice())?;
    Ok(nodes.push(node)?)
}

/// The nodes, in the order of the text.
pub fn nodes_by(alloc: Global, statements: &[Statement]) -> Result<Listed<Node>, NoMemory>
    ensures { IfOk result (λ nodes. nodes ≡ nodes_by statements.now) }
{
    let mut nodes = Listed::new(alloc);
    for statement in statements {
        add_node(alloc, &mut nodes, &statement.form)?;
    }
    Ok(nodes)
}
