//! Copies of what a cluster takes over as it is.

ghost use Rattle.std.specs.Prelude.{◌≡◌, IfOk};

use cluster_types::{Leaf, Monitor, NoMemory};
use crm_lex::Name;
use date_rules::{Rule, Test};
use listed::Listed;
use std::alloc::Global;

pub fn copy_name(alloc: Global, name: &Name) -> Result<Name, NoMemory>
    ensures { IfOk result (λ copy. copy ≡ name.now) }
{
    Ok(Name::from_bytes(alloc, name.bytes())?)
}

fn copy_test(alloc: Global, test: &Test) -> Result<Test, NoMemory>
    ensures { IfOk result (λ copy. copy ≡ test.now) }
{
    let copy = match test {
        Test::Attribute {
            name,
            compare,
            kind,
            value,
        } => Test::Attribute {
            name: copy_name(alloc, name)?,
            compare: *compare,
            kind: *kind,
            value: copy_name(alloc, value)?,
        },
        Test::Defined { name } => Test::Defined {
            name: copy_name(alloc, name)?,
        },
        Test::NotDefined { name } => Test::NotDefined {
            name: copy_name(alloc, name)?,
        },
        Test::Before { at } => Test::Before { at: *at },
        Test::After { at } => Test::After { at: *at },
        Test::Within { start, end } => Test::Within {
            start: *start,
            end: *end,
        },
    };
    Ok(copy)
}

fn copy_tests(alloc: Global, tests: &[Test]) -> Result<Listed<Test>, NoMemory>
    ensures { IfOk result (λ copies. copies ≡ tests.now) }
{
    let mut copies = Listed::new(alloc);
    for test in tests {
        copies.push(copy_test(alloc, test)?)?;
    }
    Ok(copies)
}

pub fn copy_rule(alloc: Global, rule: &Rule) -> Result<Rule, NoMemory>
    ensures { IfOk result (λ copy. copy ≡ rule.now) }
{
    Ok(Rule {
        all: rule.all,
        tests: copy_tests(alloc, rule.tests.as_slice())?,
    })
}

fn copy_monitors(alloc: Global, monitors: &[Monitor]) -> Result<Listed<Monitor>, NoMemory>
    ensures { IfOk result (λ copies. copies ≡ monitors.now) }
{
    Ok(Listed::from(Vec::from_slice(alloc, monitors)?))
}

fn copy_leaf(alloc: Global, leaf: &Leaf) -> Result<Leaf, NoMemory>
    ensures { IfOk result (λ copy. copy ≡ leaf.now) }
{
    Ok(Leaf {
        name: copy_name(alloc, &leaf.name)?,
        copies: leaf.copies,
        promoted_copies: leaf.promoted_copies,
        cloned: leaf.cloned,
        interleave: leaf.interleave,
        promotable: leaf.promotable,
        follower: leaf.follower,
        priority: leaf.priority,
        stickiness: leaf.stickiness,
        threshold: leaf.threshold,
        timeout_ms: leaf.timeout_ms,
        target_role: leaf.target_role,
        managed: leaf.managed,
        migrates: leaf.migrates,
        start_fail: leaf.start_fail,
        stop_fail: leaf.stop_fail,
        promote_fail: leaf.promote_fail,
        demote_fail: leaf.demote_fail,
        monitors: copy_monitors(alloc, leaf.monitors.as_slice())?,
    })
}

pub fn copy_leaves(alloc: Global, leaves: &[Leaf]) -> Result<Listed<Leaf>, NoMemory>
    ensures { IfOk result (λ copies. copies ≡ leaves.now) }
{
    let mut copies = Listed::new(alloc);
    for leaf in leaves {
        copies.push(copy_leaf(alloc, leaf)?)?;
    }
    Ok(copies)
}
