//! How many nodes, leaves and rules statements have.

ghost use Rattle.std.specs.Prelude.{◌≡◌, ◌≤◌, ◌<◌, ◌+◌, ◌^◌};
ghost use Rattle.cluster_model.specs.Counting.{colocation_count, location_count, order_count, rule_count};
ghost use Rattle.cluster_model.specs.Inner.Counting.{counted_with, leaf_count, node_count, nothing_counted};

use crm_parse::Form;

/// How many nodes, leaves and rules some statements have.
#[derive(Clone, Copy)]
pub(crate) struct Counts {
    pub nodes: usize,
    pub leaves: usize,
    pub rules: u128,
}

/// Nothing stands before the first statement.
pub fn nothing_counted() -> Counts
    ensures { result ≡ nothing_counted }
{
    Counts {
        nodes: 0,
        leaves: 0,
        rules: 0,
    }
}

fn node_count(form: &Form) -> usize
    ensures count { result ≡ node_count form.now }
    ensures few { result ≤ 1 }
{
    match form {
        Form::Node { .. } => 1,
        _ => 0,
    }
}

fn leaf_count(form: &Form) -> usize
    ensures count { result ≡ leaf_count form.now }
    ensures few { result ≤ 1 }
{
    match form {
        Form::Primitive { .. } => 1,
        _ => 0,
    }
}

fn location_count(form: &Form) -> usize
    ensures { result ≡ location_count form.now }
{
    match form {
        Form::Location { .. } => 1,
        Form::RuledLocation { rules, .. } => rules.len(),
        _ => 0,
    }
}

pub fn colocation_count(form: &Form) -> usize
    ensures { result ≡ colocation_count form.now }
{
    match form {
        Form::Colocation { .. } => 1,
        Form::Group { members, .. } => members.len().saturating_sub(1),
        _ => 0,
    }
}

pub fn order_count(form: &Form) -> usize
    ensures { result ≡ order_count form.now }
{
    match form {
        Form::Order { steps, .. } => steps.len().saturating_sub(1),
        Form::Group { members, .. } => members.len().saturating_sub(1),
        _ => 0,
    }
}

fn rule_count(form: &Form) -> u128
    ensures count { result ≡ rule_count form.now }
    ensures few { result < 2 ^ 66 }
{
    location_count(form) as u128 + colocation_count(form) as u128 + order_count(form) as u128
}

/// What statements have, with one more.
#[tactic(auto, unfolding(crate::specs::Inner::Counting::counted_with))]
pub fn counted_with(counts: Counts, form: &Form) -> Counts
    requires nodes { counts.nodes < 2 ^ 63 }
    requires leaves { counts.leaves < 2 ^ 63 }
    requires rules { counts.rules < 2 ^ 127 }
    ensures counted { result ≡ counted_with counts form.now }
    ensures nodes { result.nodes ≤ counts.nodes + 1 }
    ensures leaves { result.leaves ≤ counts.leaves + 1 }
    ensures rules { result.rules ≤ counts.rules + 2 ^ 66 }
{
    Counts {
        nodes: counts.nodes + node_count(form),
        leaves: counts.leaves + leaf_count(form),
        rules: counts.rules + rule_count(form),
    }
}
