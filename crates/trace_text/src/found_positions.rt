//! The positions that a walk back through a graph has found. A set has each of them by one more than its place: actions
//! by their numbers, and gates behind them.

ghost use Rattle.std.specs.Prelude.{◌≡◌, ◌≤◌, ◌<◌, ◌+◌, ◌^◌, ◌||◌, ℕ, [], false, IfSome, MatchOption, Contains, length, slice_index_or, take};
ghost use Rattle.edges.specs.Sources.{is_in_list};
ghost use Rattle.cluster_types.specs.Graphs.{IsGraph};
ghost use Rattle.listed.specs.Flags.{is_marked};
ghost use Rattle.listed.specs.Sets.{members};
ghost use Rattle.trace_text.specs.Inner.Walk.{AreBehind, IsLastFound, NoneFound, befores, source_rows};

use cluster_types::Graph;
use edges::Rows;
use listed::NumberSet;

/// The number of the last position that was found, but for so many behind it. None where it would stand below `from`.
fn last_found(found: &NumberSet, from: u32, behind: u32) -> Option<u32>
    ensures last { (to : ℕ) → from ≤ to → to ≤ length found.now → AreBehind found.now to behind
        → MatchOption result (NoneFound found.now from to) (IsLastFound found.now from to) }
    ensures more { IfSome result (λ _. behind + 1 < 2 ^ 32) }
{
    let count = found.count();
    if behind >= count {
        return None;
    }
    let number = found.nth(count - 1 - behind);
    if number <= from {
        return None;
    }
    Some(number)
}

/// Takes out all that was found.
fn clear(found: &mut NumberSet)
    ensures size { length found.new ≡ length found.old }
    ensures none { (x : ℕ) → is_marked found.new x ≡ false }
{
    while let Some(number) = last_found(found, 0, 0) {
        found.remove(number);
    }
}

/// Finds all positions from which an edge leads to this one.
fn find_sources(found: &mut NumberSet, sources: &Rows, position: u32)
    requires position { position < length sources.now }
    requires within { (x : ℕ) → Contains (slice_index_or sources.now position []) x → x < length found.old }
    ensures size { length found.new ≡ length found.old }
    ensures found { (x : ℕ) → is_marked found.new x ≡ (is_marked found.old x || is_in_list (slice_index_or sources.now position []) x) }
{
    let _most = found.most();
    for source in sources.row(position) {
        found.insert(*source + 1);
    }
}

/// Finds, in place of what was found, the positions from which the edges lead to the action of this number, directly or
/// through gates alone. How many of them are actions.
///
/// Gates are gone through from the last one on. What leads to a gate stands below it, so none is gone through twice.
pub fn walk_back(found: &mut NumberSet, sources: &Rows, graph: &Graph, number: u32) -> u32
    requires graph { IsGraph graph.now }
    requires sources { sources.now ≡ source_rows graph.now.edges }
    requires size { length found.old ≡ graph.now.edges.positions }
    requires from_one { 0 < number }
    requires to_count { number ≤ length graph.now.actions }
    ensures size { length found.new ≡ length found.old }
    ensures few { result ≤ length (members found.new) }
    ensures befores { take result (members found.new) ≡ befores graph.now number }
{
    let actions = graph.count();
    clear(found);
    find_sources(found, sources, number - 1);
    let mut behind = 0;
    while let Some(gate) = last_found(found, actions, behind) {
        find_sources(found, sources, gate - 1);
        behind += 1;
    }
    found.count() - behind
}
