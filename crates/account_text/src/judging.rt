//! Why a decision chooses a node or doesn't.

ghost use Rattle.std.specs.Prelude.{◌≡◌, ◌<◌, ◌&&◌, ◌||◌, length, option_map};
ghost use Rattle.cluster_types.specs.Tables.{targets_of};
ghost use Rattle.placement.specs.Reads.{is_kept_in};
ghost use Rattle.account_text.specs.Inner.AskedVerdicts as spec;
ghost use Rattle.account_text.specs.Inner.VerdictsByStates as judged;
ghost use Rattle.account_text.specs.Inner.LentParts as lent;

use crate::decision_asked::Asked;
use crate::lent_parts::VerdictRef;
use crate::sides::{first_joined, first_missing};
use cluster_types::NodeId;
use placement::{is_kept, is_placed};

/// Whether the decision is permitted on the node.
fn is_permitted(asked: &Asked, node: NodeId) -> bool
    ensures { result ≡ (asked.now.known.now.rights.may_start
        || asked.now.stays && is_kept_in asked.now.known.now.cluster.now asked.now.known.now.states.now asked.now.decision node) }
{
    let known = asked.known;
    known.rights.may_start
        || asked.stays && is_kept(known.cluster, known.states, asked.decision, node)
}

/// The first of the tests of colocations and of the place that the node fails.
fn refusal_by_table<'a>(asked: &Asked<'a>, node: NodeId) -> Option<VerdictRef<'a>>
    ensures { option_map lent.lent_verdict result
        ≡ judged.refusal_by_table (targets_of asked.now.loaded.now.table) asked.now.decision asked.now.sides.now node }
{
    let table = &asked.loaded.table;
    if let Some(rule) = first_missing(asked.sides, table, asked.decision, node) {
        return Some(VerdictRef::Without(rule));
    }
    if let Some(rule) = first_joined(asked.sides, table, asked.decision, node) {
        return Some(VerdictRef::Beside(rule));
    }
    if is_placed(table, asked.decision, node) {
        None
    } else {
        Some(VerdictRef::Unplaced)
    }
}

/// The first test of a candidate that the node fails, if it fails one.
fn refusal<'a>(asked: &Asked<'a>, node: NodeId) -> Option<VerdictRef<'a>>
    requires { node < length asked.now.chosen.now.totals.items }
    ensures { option_map lent.lent_verdict result ≡ spec.refusal_asked asked.now node }
{
    let total = asked.chosen.totals[node as usize];
    if !asked.known.usable.has(node) {
        Some(VerdictRef::Unusable)
    } else if !is_permitted(asked, node) {
        Some(VerdictRef::Forbidden)
    } else if total.points < 0 {
        Some(VerdictRef::Below)
    } else {
        refusal_by_table(asked, node)
    }
}

/// By what the one node goes before the other.
fn passed_by<'a>(asked: &Asked<'a>, node: NodeId, by: NodeId) -> VerdictRef<'a>
    requires node { node < length asked.now.chosen.now.totals.items }
    requires by { by < length asked.now.chosen.now.totals.items }
    ensures { lent.lent_verdict result ≡ judged.passed_in asked.now.chosen.now.totals.items asked.now.loaded.now.loads.items node by }
{
    let total = asked.chosen.totals[node as usize];
    let greater = asked.chosen.totals[by as usize];
    if total.points < greater.points {
        return VerdictRef::Less(by);
    }
    if asked.loaded.loads[by as usize] < asked.loaded.loads[node as usize] {
        VerdictRef::Fuller(by)
    } else {
        VerdictRef::Later(by)
    }
}

/// What is said of a candidate that isn't chosen.
fn outdone<'a>(asked: &Asked<'a>, node: NodeId) -> VerdictRef<'a>
    requires { node < length asked.now.chosen.now.totals.items }
    ensures { lent.lent_verdict result ≡ spec.outdone_asked asked.now node }
{
    match asked.last {
        Some(last) => passed_by(asked, node, last),
        None => VerdictRef::Capped,
    }
}

/// Why the decision chooses the node or doesn't.
pub(crate) fn verdict_on<'a>(asked: &Asked<'a>, node: NodeId) -> VerdictRef<'a>
    requires { node < length asked.now.chosen.now.totals.items }
    ensures { lent.lent_verdict result ≡ spec.verdict_asked asked.now node }
{
    if asked.chosen.nodes.has(node) {
        return VerdictRef::Chosen;
    }
    match refusal(asked, node) {
        Some(verdict) => verdict,
        None => outdone(asked, node),
    }
}
