//! Which positions may be taken, as others are taken.

ghost use Rattle.std.specs.Prelude.{◌≡◌, ◌<◌, ◌≤◌, ◌+◌, ◌==◌, ◌&&◌, ◌||◌, ℕ, true, false, if◌then◌else◌, Option, Some, None, MatchOption, IfOk, List, Contains, length, count_by, replicate, slice_index_or, slice_set};
ghost use Rattle.std.specs.List.{list_any};
ghost use Rattle.edges.specs.declared.edge.Edge.{Edge as EdgeOf};
ghost use Rattle.edges.specs.Loops.{EndsWithin};
ghost use Rattle.placement.specs.Inner.Queueing as spec;
ghost use Rattle.edges.specs.Rows.{edge_targets, edges_at};

use edges::{Edge, Rows, Side, count_ends, count_off};
use faults::with;
use listed::NumberSet;
use std::alloc::{AllocError, Global};

/// Positions, of which some were taken. The first to be taken is that of the least place.
#[derive(Drop)]
pub(crate) struct Queue {
    /// Where the edges from each position lead.
    pub(crate) rows: Rows,
    /// The position of each place.
    pub(crate) order: Vec<u32>,
    /// The place of each position, if it has one.
    pub(crate) places: Vec<Option<u32>>,
    /// Of each position, how many edges lead to it from positions that weren't taken.
    pub(crate) counts: Vec<usize>,
    /// Which positions were taken.
    pub(crate) made: Vec<bool>,
    /// The places, from 1 on, of the positions that may be taken.
    pub(crate) ready: NumberSet,
}

/// Counts off one for each time that a position stands in the row.
fn count_off_all(counts: &mut Vec<usize>, row: &[u32])
    requires { (x : ℕ) → count_by (◌==◌ x) row.now ≤ slice_index_or counts.old.items x 0 }
    ensures size { length counts.new.items ≡ length counts.old.items }
    ensures less { (x : ℕ) → slice_index_or counts.new.items x 0 + count_by (◌==◌ x) row.now ≡ slice_index_or counts.old.items x 0 }
{
    for position in row {
        count_off(counts, *position);
    }
}

/// Whether the position wasn't taken and no edge holds it.
fn is_free(made: &[bool], counts: &[usize], position: u32) -> bool
    requires made { position < length made.now }
    requires counts { position < length counts.now }
    ensures { result ≡ spec.is_free made.now counts.now position }
{
    !made[position as usize] && counts[position as usize] == 0
}

/// Makes the place of a position ready, if that is wanted and it has one.
fn admit_if(ready: &mut NumberSet, places: &[Option<u32>], position: u32, wanted: bool)
    requires few { length ready.old < 4294967296 }
    requires places { (p : ℕ) → slice_index_or places.now position None ≡ Some p → p < length ready.old }
    ensures size { length ready.new ≡ length ready.old }
    ensures ready { (p : ℕ) → slice_index_or ready.new p false ≡ (slice_index_or ready.old p false || (wanted && spec.has_place places.now position p)) }
{
    if !wanted {
        return;
    }
    if let Some(Some(place)) = places.get(position as usize) {
        ready.insert(*place + 1);
    }
}

/// Makes those places ready of which the positions stand in the row and are free.
fn admit(
    ready: &mut NumberSet,
    places: &[Option<u32>],
    made: &[bool],
    counts: &[usize],
    row: &[u32],
)
    requires few { length ready.old < 4294967296 }
    requires made { (x : ℕ) → Contains row.now x → x < length made.now }
    requires counts { (x : ℕ) → Contains row.now x → x < length counts.now }
    requires places { (x p : ℕ) → slice_index_or places.now x None ≡ Some p → p < length ready.old }
    ensures size { length ready.new ≡ length ready.old }
    ensures ready { (p : ℕ) → slice_index_or ready.new p false
        ≡ (slice_index_or ready.old p false || list_any (λ x. spec.is_free made.now counts.now x && spec.has_place places.now x p) row.now) }
{
    for position in row {
        let free = is_free(made, counts, *position);
        admit_if(ready, places, *position, free);
    }
}

/// The first place that is ready.
fn first_place(ready: &NumberSet) -> Option<u32>
    ensures { spec.IsNextPlace ready.now result }
{
    match ready.first() {
        Some(number) => Some(number - 1),
        None => None,
    }
}

/// The places of positions that stand in an order.
fn places_of(alloc: Global, positions: u32, order: &[u32]) -> Result<Vec<Option<u32>>, AllocError>
    requires few { length order.now < 4294967296 }
    requires within { (x : ℕ) → Contains order.now x → x < positions }
    ensures there { IfOk result (λ places. spec.ArePlaces order.now places.items) }
    ensures all { IfOk result (λ places. (x : ℕ) → Contains order.now x → (p : ℕ) × (spec.has_place places.items x p ≡ true)) }
{
    let mut places = vec![in alloc; None; positions as usize]?;
    for place in 0..order.len() {
        places[order[place] as usize] = Some(place as u32);
    }
    Ok(places)
}

/// Where the edges from each position lead, and how many lead to it.
fn held_by(alloc: Global, positions: u32, edges: &[Edge]) -> Result<(Rows, Vec<usize>), AllocError>
    requires { EndsWithin positions edges.now }
    ensures rows { IfOk result (λ held. held.0 ≡ edge_targets positions edges.now) }
    ensures size { IfOk result (λ held. length held.1.items ≡ positions) }
    ensures counted { IfOk result (λ held. (x : ℕ) → x < positions → slice_index_or held.1.items x 0 ≡ edges_at Side.After edges.now x) }
{
    let rows = Rows::new(alloc, positions, edges)?;
    with(rows, count_ends(alloc, positions, edges, Side::After))
}

/// Which positions were taken, and which places are ready: none.
fn none_taken(
    alloc: Global,
    positions: u32,
    places: u32,
) -> Result<(Vec<bool>, NumberSet), AllocError>
    ensures made { IfOk result (λ none. none.0.items ≡ replicate positions false) }
    ensures ready { IfOk result (λ none. none.1 ≡ replicate places false) }
{
    let made = vec![in alloc; false; positions as usize]?;
    with(made, NumberSet::new(alloc, places))
}

impl Queue {
    /// No position was taken yet.
    pub(crate) fn new(
        alloc: Global,
        positions: u32,
        edges: &[Edge],
        order: Vec<u32>,
    ) -> Result<Queue, AllocError>
        requires few { length order.items < 4294967296 }
        requires ends { EndsWithin positions edges.now }
        requires within { (x : ℕ) → Contains order.items x → x < positions }
        ensures queue { IfOk result (λ queue. spec.IsQueue edges.now positions queue) }
        ensures order { IfOk result (λ queue. queue.order.items ≡ order.items) }
        ensures made { IfOk result (λ queue. queue.made.items ≡ replicate positions false) }
        ensures all { IfOk result (λ queue. (x : ℕ) → Contains order.items x → (p : ℕ) × (spec.has_place queue.places.items x p ≡ true)) }
    {
        let places = places_of(alloc, positions, &order);
        let (order, places) = with(order, places)?;
        let held = held_by(alloc, positions, edges);
        let ((order, places), (rows, counts)) = with((order, places), held)?;
        let none = none_taken(alloc, positions, order.len() as u32);
        let ((order, places, rows, counts), (made, mut ready)) = with(
            (order, places, rows, counts),
            none,
        )?;
        admit(&mut ready, &places, &made, &counts, &order);
        Ok(Queue {
            rows,
            order,
            places,
            counts,
            made,
            ready,
        })
    }

    /// Takes the position of the first place that is ready, and counts off the edges from it. The place, if there is
    /// one.
    pub(crate) fn take(&mut self) -> Option<u32>
        requires { (edges : List EdgeOf) × (positions : ℕ) × (spec.IsQueue edges positions self.old) }
        ensures place { spec.IsNextPlace self.old.ready result }
        ensures queue { (edges : List EdgeOf) (positions : ℕ) → spec.IsQueue edges positions self.old → spec.IsQueue edges positions self.new }
        ensures order { self.new.order.items ≡ self.old.order.items }
        ensures places { self.new.places.items ≡ self.old.places.items }
        ensures made { MatchOption result (self.new.made.items ≡ self.old.made.items)
            (λ p. self.new.made.items ≡ slice_set self.old.made.items (slice_index_or self.old.order.items p 0) true) }
    {
        let place = first_place(&self.ready)?;
        let position = self.order[place as usize];
        self.ready.remove(place + 1);
        self.made[position as usize] = true;
        let row = self.rows.row(position);
        count_off_all(&mut self.counts, row);
        admit(&mut self.ready, &self.places, &self.made, &self.counts, row);
        Some(place)
    }
}
