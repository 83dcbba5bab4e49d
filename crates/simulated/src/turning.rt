//! What comes next is drawn.

ghost use Rattle.std.specs.Prelude.{◌≡◌, ◌+◌, ◌<◌, None, IfSome, length};
ghost use Rattle.cases.specs.Draws as drawing;
ghost use Rattle.simulated.specs.KeptReality.{IsOfSame, ShowsWorld};
ghost use Rattle.simulated.specs.Inner.NodeTurns as node_turns;
ghost use Rattle.simulated.specs.Inner.NodeTurns.{IsForNode, IsOfNode, draws_for_node};
ghost use Rattle.simulated.specs.Turns as turns;
ghost use Rattle.simulated.specs.Turns.{MayCome, first_number, next_turn, world_at_turn};
ghost use Rattle.simulated.specs.Inner.Turns.{with_draws};
ghost use Rattle.simulated.specs.RealWorlds.{RealWorld};

use crate::nodes::node_turn;
use crate::reality::Reality;
use crate::turn::{Fate, Turn};
use cluster_types::NodeId;

/// How many faults are given at most.
pub(crate) const MOST_FAULTS: u32 = 16;

/// What becomes of an action by the first number, from 0 to 19.
fn fate_by(first: Option<u32>) -> Fate
    ensures { result ≡ turns.fate_by first }
{
    match first {
        Some(2) => Fate::DoneBadly,
        Some(3) => Fate::Undone,
        Some(4) => Fate::TimedOut,
        _ => Fate::True,
    }
}

impl Reality<'_> {
    /// The first number, which decides what comes. Once all faults were given it is drawn and doesn't count.
    fn roll(&mut self) -> Option<u32>
        ensures first { (w : RealWorld) → ShowsWorld self.old w → result ≡ first_number self.old.number w }
        ensures shows { (w : RealWorld) → ShowsWorld self.old w → ShowsWorld self.new (with_draws w 1) }
        ensures early { IfSome result (λ die. self.new.faults < 16) }
        ensures rising { self.new.rising ≡ self.old.rising }
        ensures same { IsOfSame self.old self.new }
    {
        let drawn = self.draw(20);
        if self.faults < MOST_FAULTS {
            Some(drawn)
        } else {
            None
        }
    }

    /// A node is drawn. Where the cluster has none, it isn't one of it.
    fn draw_node(&mut self) -> NodeId
        ensures drawn { (w : RealWorld) → ShowsWorld self.old w → 0 < length self.old.cluster.nodes
            → result ≡ drawing.draw self.old.number (w.drawn + 1) (length self.old.cluster.nodes) }
        ensures shows { (w : RealWorld) → ShowsWorld self.old w → ShowsWorld self.new (with_draws w 1) }
        ensures rising { self.new.rising ≡ self.old.rising }
        ensures faults { self.new.faults ≡ self.old.faults }
        ensures same { IsOfSame self.old self.new }
    {
        let count = self.cluster.nodes.len() as u32;
        self.draw(count.max(1))
    }

    /// What comes of a node, by the first number, if anything does.
    fn node_turn(&mut self, first: Option<u32>) -> Option<Turn>
        ensures turn { (w : RealWorld) → ShowsWorld self.old w → result ≡ node_turns.node_turn self.old.cluster self.old.number w first }
        ensures shows { (w : RealWorld) → ShowsWorld self.old w → ShowsWorld self.new (with_draws w (draws_for_node first)) }
        ensures node { IfSome result IsOfNode }
        ensures low { IfSome result (λ turn. IsForNode first) }
        ensures rising { self.new.rising ≡ self.old.rising }
        ensures faults { self.new.faults ≡ self.old.faults }
        ensures same { IsOfSame self.old self.new }
    {
        let Some(die) = first else {
            return None;
        };
        if die > 1 {
            return None;
        }
        let node = self.draw_node();
        node_turn(self.nodes.as_slice(), die, node)
    }

    /// What comes next, with so many actions in flight. What comes up has come up then. It asks for one at least.
    pub fn turn(&mut self, count: u32) -> Turn
        requires { 0 < count }
        ensures turn { (w : RealWorld) → ShowsWorld self.old w → result ≡ next_turn self.old.cluster self.old.number w count }
        ensures shows { (w : RealWorld) → ShowsWorld self.old w → ShowsWorld self.new (world_at_turn self.old.cluster self.old.number w) }
        ensures may { MayCome count self.new.faults result }
        ensures calm { self.new.rising ≡ None }
        ensures same { IsOfSame self.old self.new }
    {
        self.settle();
        let first = self.roll();
        match self.node_turn(first) {
            Some(turn) => turn,
            None => {
                let place = self.draw(count);
                let fate = fate_by(first);
                Turn::Ends { place, fate }
            }
        }
    }
}
