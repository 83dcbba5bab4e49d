//! A simulated cluster as it is kept.

ghost use Rattle.std.specs.Prelude.{◌≡◌, ◌*◌, ◌+◌, ◌<◌, None, length};
ghost use Rattle.cluster_types.specs.Valid.{KeepsLimits};
ghost use Rattle.cases.specs.Draws as drawing;
ghost use Rattle.simulated.specs.KeptReality.{IsOfSame, ListsCells, NoneRises, ShowsWorld, reality};
ghost use Rattle.simulated.specs.Turns.{after_begin};
ghost use Rattle.simulated.specs.Inner.Turns.{calm, with_draws};
ghost use Rattle.simulated.specs.RealWorlds as worlds;
ghost use Rattle.simulated.specs.RealWorlds.{Cells, RealWorld};

use crate::acts::begin;
use crate::cells::found_at;
use crate::real::{Real, Standing};
use crate::rising::raise;
use cases::{first_state, next_state, taken_of};
use cluster_types::{Action, Cluster, LeafId, NodeId};
use std::marker::Model;

/// A simulated cluster: how its nodes stand, and what really runs.
#[derive(Drop)]
pub struct Reality<'c> {
    pub(crate) cluster: &'c Cluster,
    pub(crate) nodes: Vec<Standing>,
    /// Leaf by leaf, node by node.
    pub(crate) cells: Vec<Real>,
    /// The cell that comes up.
    pub(crate) rising: Option<(LeafId, NodeId)>,
    pub(crate) number: u32,
    /// Of the numbers that are drawn.
    pub(crate) state: u32,
    /// How many faults were given.
    pub(crate) faults: u32,
}

impl<'c> Model for Reality<'c> {
    ghost use Rattle.simulated.specs.KeptReality.{RealityOf, reality};
    ghost use Rattle.simulated.specs.Inner.RealityLists.{RealityFits};

    ghost Value = { RealityOf };

    ghost view = { λ k. reality k.cluster.now k.nodes.items k.cells.items k.rising k.number k.state k.faults };

    ghost invariant = { λ k. RealityFits k.cluster.now k.nodes.items k.cells.items };
}

impl<'c> Reality<'c> {
    /// A simulated cluster of a number, of which nothing was drawn yet. No cell may come up in it: `rising` tells none.
    pub fn new(
        cluster: &'c Cluster,
        nodes: Vec<Standing>,
        cells: Vec<Real>,
        number: u32,
    ) -> Reality<'c>
        requires limits { KeepsLimits cluster.now }
        requires nodes { length nodes.items ≡ length cluster.now.nodes }
        requires cells { length cells.items ≡ length cluster.now.leaves * length cluster.now.nodes }
        requires settled { NoneRises cluster.now cells.items }
        ensures { result ≡ reality cluster.now nodes.items cells.items None number (drawing.state_after number 0) 0 }
    {
        Reality {
            cluster,
            nodes,
            cells,
            rising: None,
            number,
            state: first_state(number),
            faults: 0,
        }
    }

    /// What a leaf really does on a node; where the cluster has no such cell, nothing.
    pub fn real(&self, leaf: LeafId, node: NodeId) -> Real
        ensures kept { (held : Cells) → ListsCells self.now.cluster self.now.cells held → result ≡ worlds.found_at self.now.cluster held leaf node }
        ensures shown { (w : RealWorld) → ShowsWorld self.now w → result ≡ worlds.found_at self.now.cluster w.cells leaf node }
    {
        found_at(self.cluster, leaf, node, self.cells.as_slice())
    }

    /// An action begins. Once a migration is sent, its leaf runs on the target too, if it is there on the source.
    pub fn begin(&mut self, action: Action)
        ensures shows { (w : RealWorld) → ShowsWorld self.old w → ShowsWorld self.new (after_begin self.old.cluster w action) }
        ensures same { IsOfSame self.old self.new }
    {
        begin(self.cluster, action, &mut self.cells);
    }

    /// What comes up has come up.
    pub(crate) fn settle(&mut self)
        ensures shows { (w : RealWorld) → ShowsWorld self.old w → ShowsWorld self.new (calm w) }
        ensures none { self.new.rising ≡ None }
        ensures faults { self.new.faults ≡ self.old.faults }
        ensures same { IsOfSame self.old self.new }
    {
        raise(self.cluster, self.rising, &mut self.cells);
        self.rising = None;
    }

    /// The next number that is drawn, below the bound.
    pub(crate) fn draw(&mut self, bound: u32) -> u32
        requires { 0 < bound }
        ensures drawn { (w : RealWorld) → ShowsWorld self.old w → result ≡ drawing.draw self.old.number (w.drawn + 1) bound }
        ensures low { result < bound }
        ensures shows { (w : RealWorld) → ShowsWorld self.old w → ShowsWorld self.new (with_draws w 1) }
        ensures rising { self.new.rising ≡ self.old.rising }
        ensures faults { self.new.faults ≡ self.old.faults }
        ensures same { IsOfSame self.old self.new }
    {
        self.state = next_state(self.state);
        taken_of(self.state, bound)
    }
}
