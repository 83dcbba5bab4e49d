//! The edges of one join after another, each with gates of its own.

ghost use Rattle.std.specs.Prelude.{◌≡◌, ◌+◌, ◌*◌, ◌++◌, ◌<◌, ◌≤◌, [], All, IfOk, OnOk, length};
ghost use Rattle.std.specs.List.{range_with_len};
ghost use Rattle.planner.specs.Inner.Gates.{join_edges, key_at};
ghost use Rattle.planner.specs.Joins.{first_joins, join as spec_join};
ghost use Rattle.planner.specs.Inner.Places.{places_of};
ghost use Rattle.cluster_types.specs.Plans.{first_gates};
ghost use Rattle.planner.specs.Inner.Rooms as rooms;
ghost use Rattle.planner.specs.Inner.Rooms.{Builds};

use crate::precedence::gates::add_join;
use crate::precedence::inputs::Known;
use crate::precedence::sides::{Join, Side};
use cluster_types::{Cluster, Edge};
use faults::done;
use std::alloc::{AllocError, Global};

/// The edges that were built so far, and the first gate that none of them has.
#[derive(Drop)]
pub struct Building {
    pub list: Vec<Edge>,
    pub base: u32,
}

/// How many leaves the cells of a side have.
fn rows_of(cluster: &Cluster, side: Side) -> u32
    requires { length cluster.now.leaves ≤ 1000 }
    ensures { result ≡ rooms.rows_of cluster.now side }
{
    match side {
        Side::Fences
        | Side::GivesAnything
        | Side::Parts { .. }
        | Side::GivesRole { .. }
        | Side::Earlier { .. }
        | Side::EarlierTakers { .. }
        | Side::Later { .. }
        | Side::LaterTakers { .. } => 1,
        _ => cluster.leaves.len() as u32,
    }
}

fn nodes_if(cluster: &Cluster, by_node: bool) -> u32
    requires { length cluster.now.nodes ≤ 256 }
    ensures { result ≡ rooms.nodes_if cluster.now by_node }
{
    if by_node {
        cluster.nodes.len() as u32
    } else {
        1
    }
}

/// How many nodes they have.
fn width_of(cluster: &Cluster, side: Side) -> u32
    requires { length cluster.now.nodes ≤ 256 }
    ensures { result ≡ rooms.width_of cluster.now side }
{
    match side {
        Side::StopsAlone
        | Side::StartsAlone
        | Side::BeforeStops
        | Side::Stops
        | Side::Starts
        | Side::Promotes
        | Side::BeforeMonitors
        | Side::Monitors
        | Side::Parts { .. }
        | Side::GivesRole { .. } => cluster.nodes.len() as u32,
        Side::Earlier { local, .. }
        | Side::EarlierTakers { local, .. }
        | Side::Later { local, .. }
        | Side::LaterTakers { local, .. } => nodes_if(cluster, local),
        _ => 1,
    }
}

/// All positions of so many actions.
pub fn all_places(alloc: Global, count: u32) -> Result<Vec<u32>, AllocError>
    ensures all { IfOk result (λ places. places.items ≡ range_with_len 0 count) }
    ensures within { IfOk result (λ places. All (λ place. place < count) places.items) }
{
    let mut places = Vec::new(alloc);
    for place in 0..count {
        places.push(place)?;
    }
    Ok(places)
}

impl Building {
    /// Adds the edges of a join over the positions, with gates behind all that are taken, in time linear in the positions.
    #[tactic(auto, using(crate::proofs::KeysRoom::has_room))]
    pub(crate) fn add(
        &mut self,
        known: &Known,
        join: Join,
        places: &[u32],
    ) -> Result<(), AllocError>
        requires within { All (λ place. place < length known.now.actions.now) places.now }
        requires even { rooms.IsEven known.now.cluster.now join }
        requires room { self.old.base + rooms.width_of known.now.cluster.now join.from * rooms.rows_of known.now.cluster.now join.from < 4294967296 }
        ensures edges { OnOk result (self.new.list.items
            ≡ self.old.list.items
            ++ join_edges self.old.base (rooms.width_of known.now.cluster.now join.from) (key_at known.now.cluster.now known.now.actions.now join.from)
            (key_at known.now.cluster.now known.now.actions.now join.to) places.now) }
        ensures gates { OnOk result (self.new.base
            ≡ self.old.base + rooms.width_of known.now.cluster.now join.from * rooms.rows_of known.now.cluster.now join.from) }
    {
        let width = width_of(known.cluster, join.from);
        let rows = rows_of(known.cluster, join.from);
        add_join(&mut self.list, known, join, self.base, width, places)?;
        self.base += width * rows;
        Ok(())
    }
}

/// A join.
fn join(from: Side, to: Side) -> Join
    ensures { result ≡ spec_join from to }
{
    Join { from, to }
}

impl Building {
    /// Adds the edges of all joins that hang on no rule over all positions, where none was built yet.
    fn add_first(&mut self, known: &Known, places: &[u32]) -> Result<(), AllocError>
        requires within { All (λ place. place < length known.now.actions.now) places.now }
        requires all { places.now ≡ range_with_len 0 (length known.now.actions.now) }
        requires none { self.old.list.items ≡ [] }
        requires gate { self.old.base ≡ length known.now.actions.now }
        ensures builds { OnOk result (Builds known.now.cluster.now known.now.actions.now (places_of known.now.actions.now) self.new.list.items self.new.base first_joins) }
        ensures gates { OnOk result (self.new.base ≤ length known.now.actions.now + first_gates known.now.cluster.now) }
    {
        let probes = join(Side::Probes, Side::Gives);
        self.add(known, probes, places)?;
        let stops = join(Side::StopsAlone, Side::StartsAlone);
        self.add(known, stops, places)?;
        let fences = join(Side::Fences, Side::GivesAnything);
        self.add(known, fences, places)?;
        let before_stops = join(Side::BeforeStops, Side::Stops);
        self.add(known, before_stops, places)?;
        let before_promotes = join(Side::Starts, Side::Promotes);
        self.add(known, before_promotes, places)?;
        let before_monitors = join(Side::BeforeMonitors, Side::Monitors);
        self.add(known, before_monitors, places)?;
        let takes = join(Side::Takes, Side::PromotesOf);
        self.add(known, takes, places)?;
        let sends = join(Side::Sends, Side::TakesIn);
        self.add(known, sends, places)?;
        Ok(())
    }
}

/// The edges of all joins that hang on no rule, in time linear in the actions.
pub(crate) fn first_edges(alloc: Global, known: &Known) -> Result<Building, AllocError>
    ensures builds { IfOk result (λ building. Builds known.now.cluster.now known.now.actions.now (places_of known.now.actions.now) building.list.items
        building.base first_joins) }
    ensures gates { IfOk result (λ building. building.base ≤ length known.now.actions.now + first_gates known.now.cluster.now) }
{
    let count = known.actions.len() as u32;
    let places = all_places(alloc, count)?;
    let mut building = Building {
        list: Vec::new(alloc),
        base: count,
    };
    let added = building.add_first(known, &places);
    done(building, added)
}
