//! The line of a part.

ghost use Rattle.std.specs.Prelude.{◌≡◌, ◌++◌, OnOk};
ghost use Rattle.score.specs.ScoreText.{score_text};
ghost use Rattle.decision_account.specs.Accounts as accounts;
ghost use Rattle.account_text.specs.Inner.LentParts as spec;

use crate::lent_parts::{OriginRef, PartRef};
use cluster_types::{Cluster, LeafId};
use faults::NoMemory;
use listed::Name;
use score::Score;

fn push_score(text: &mut Vec<u8>, score: Score) -> Result<(), NoMemory>
    ensures { OnOk result (text.new.items ≡ text.old.items ++ score_text score) }
{
    let mut buffer = [0; 12];
    let length = score.write_to(&mut buffer);
    text.extend_from_slice(&buffer[..length])?;
    Ok(())
}

fn push_lender(
    text: &mut Vec<u8>,
    cluster: &Cluster,
    lender: Option<LeafId>,
) -> Result<(), NoMemory>
    ensures { OnOk result (text.new.items ≡ text.old.items ++ accounts.lender_text cluster.now lender) }
{
    match lender {
        Some(leaf) => {
            text.extend_from_slice(b"lent ")?;
            text.extend_from_slice(cluster.leaf_name(leaf))?;
            text.extend_from_slice(b" ")?;
            Ok(())
        }
        None => Ok(()),
    }
}

fn push_word(text: &mut Vec<u8>, word: &[u8]) -> Result<(), NoMemory>
    ensures { OnOk result (text.new.items ≡ text.old.items ++ word.now) }
{
    text.extend_from_slice(word)?;
    Ok(())
}

/// A word, and the name of a rule.
fn push_rule(text: &mut Vec<u8>, word: &[u8], id: &Name) -> Result<(), NoMemory>
    ensures { OnOk result (text.new.items ≡ text.old.items ++ (word.now ++ id.now)) }
{
    text.extend_from_slice(word)?;
    text.extend_from_slice(id.bytes())?;
    Ok(())
}

fn push_origin(text: &mut Vec<u8>, origin: &OriginRef) -> Result<(), NoMemory>
    ensures { OnOk result (text.new.items ≡ text.old.items ++ accounts.origin_text (spec.lent_origin origin.now)) }
{
    match origin {
        OriginRef::Location(id) => push_rule(text, b"location ", id),
        OriginRef::Stickiness => push_word(text, b"stickiness"),
        OriginRef::Ban => push_word(text, b"banned"),
        OriginRef::OptIn => push_word(text, b"opt-in"),
        OriginRef::Promotion => push_word(text, b"promotion"),
        OriginRef::Colocation(id) => push_rule(text, b"colocation ", id),
    }
}

/// The line of a part of a leaf and a node, which are told by their text, as `part LEAF NODE SCORE ORIGIN`. `NoMemory` comes when memory runs out.
pub(crate) fn push_part(
    text: &mut Vec<u8>,
    cluster: &Cluster,
    cell: &[u8],
    part: &PartRef,
) -> Result<(), NoMemory>
    ensures { OnOk result (text.new.items ≡ text.old.items ++ accounts.part_text cluster.now cell.now (spec.lent_part part.now)) }
{
    text.extend_from_slice(b"part ")?;
    text.extend_from_slice(cell)?;
    text.extend_from_slice(b" ")?;
    push_score(text, part.score)?;
    text.extend_from_slice(b" ")?;
    push_lender(text, cluster, part.lender)?;
    push_origin(text, &part.origin)?;
    text.extend_from_slice(b"\n")?;
    Ok(())
}
