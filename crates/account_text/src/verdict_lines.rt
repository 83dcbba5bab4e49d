//! The line of a verdict.

ghost use Rattle.std.specs.Prelude.{◌≡◌, ◌++◌, codes, OnOk};
ghost use Rattle.decision_account.specs.Accounts as accounts;
ghost use Rattle.account_text.specs.Inner.LentParts as spec;

use crate::lent_parts::VerdictRef;
use cluster_types::Cluster;
use faults::NoMemory;
use trace_text::node_name;

/// A line of two words with a text between them.
fn push_around(text: &mut Vec<u8>, before: &[u8], cell: &[u8], after: &[u8]) -> Result<(), NoMemory>
    ensures { OnOk result (text.new.items ≡ text.old.items ++ (before.now ++ cell.now ++ after.now)) }
{
    text.extend_from_slice(before)?;
    text.extend_from_slice(cell)?;
    text.extend_from_slice(after)?;
    Ok(())
}

/// A line that ends in a name.
fn push_named(text: &mut Vec<u8>, cell: &[u8], word: &[u8], name: &[u8]) -> Result<(), NoMemory>
    ensures { OnOk result (text.new.items ≡ text.old.items ++ (codes "not " ++ cell.now ++ word.now ++ name.now ++ codes "\n")) }
{
    text.extend_from_slice(b"not ")?;
    text.extend_from_slice(cell)?;
    text.extend_from_slice(word)?;
    text.extend_from_slice(name)?;
    text.extend_from_slice(b"\n")?;
    Ok(())
}

/// The line of a verdict on a leaf and a node, which are told by their text. `NoMemory` comes when memory runs out.
pub(crate) fn push_verdict(
    text: &mut Vec<u8>,
    cluster: &Cluster,
    cell: &[u8],
    verdict: &VerdictRef,
) -> Result<(), NoMemory>
    ensures { OnOk result (text.new.items ≡ text.old.items ++ accounts.verdict_text cluster.now cell.now (spec.lent_verdict verdict.now)) }
{
    match verdict {
        VerdictRef::Chosen => push_around(text, b"chosen ", cell, b"\n"),
        VerdictRef::Unusable => push_around(text, b"not ", cell, b" unusable\n"),
        VerdictRef::Forbidden => push_around(text, b"not ", cell, b" forbidden\n"),
        VerdictRef::Below => push_around(text, b"not ", cell, b" below\n"),
        VerdictRef::Without(rule) => push_named(text, cell, b" without ", rule.id.bytes()),
        VerdictRef::Beside(rule) => push_named(text, cell, b" beside ", rule.id.bytes()),
        VerdictRef::Unplaced => push_around(text, b"not ", cell, b" unplaced\n"),
        VerdictRef::Capped => push_around(text, b"not ", cell, b" capped\n"),
        VerdictRef::Less(node) => push_named(
            text,
            cell,
            b" less ",
            node_name(cluster, *node as usize),
        ),
        VerdictRef::Fuller(node) => push_named(
            text,
            cell,
            b" fuller ",
            node_name(cluster, *node as usize),
        ),
        VerdictRef::Later(node) => push_named(
            text,
            cell,
            b" later ",
            node_name(cluster, *node as usize),
        ),
    }
}
