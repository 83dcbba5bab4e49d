//! What comes next comes about.

ghost use Rattle.std.specs.Prelude.{◌≡◌, ◌*◌, ◌<◌, if◌then◌else◌, None, true, length};
ghost use Rattle.cluster_types.specs.declared.journal.Answer.TheVariants as answer;
ghost use Rattle.cluster_types.specs.Valid.{KeepsLimits};
ghost use Rattle.simulated.specs.declared.turn.Fate.TheVariants as fate;
ghost use Rattle.simulated.specs.KeptReality.{ListsCells, IsOfSame, ShowsWorld};
ghost use Rattle.simulated.specs.Turns.{after_end, after_joining, after_leaving, answer_by_fate, is_fault};
ghost use Rattle.simulated.specs.RealWorlds.{Cells, RealWorld, without_node};

use crate::acts::{act, true_code, undo};
use crate::cells::clear_node;
use crate::nodes::{fence, left_behind, set_node};
use crate::real::{Real, Standing};
use crate::reality::Reality;
use crate::rising::give_up;
use crate::turn::Fate;
use cluster_types::exit_codes::ERR_GENERIC;
use cluster_types::{Action, Answer, Cluster, NodeId};

/// A node has left: what runs there runs on where nodes are fenced, and has stopped where they aren't.
fn leave_cells(cluster: &Cluster, node: NodeId, cells: &mut Vec<Real>)
    requires limits { KeepsLimits cluster.now }
    requires full { length cells.old.items ≡ length cluster.now.leaves * length cluster.now.nodes }
    ensures held { (held : Cells) → ListsCells cluster.now cells.old.items held
        → ListsCells cluster.now cells.new.items (if cluster.now.properties.fencing then held else without_node node held) }
    ensures len { length cells.new.items ≡ length cells.old.items }
{
    if !cluster.properties.fencing {
        clear_node(cluster, node, cells);
    }
}

impl Reality<'_> {
    /// A node leaves without a word. It is said so. It asks that fewer than 16 faults were given.
    pub fn leave(&mut self, node: NodeId) -> Answer
        requires { self.old.faults < 16 }
        ensures shows { (w : RealWorld) → ShowsWorld self.old w → ShowsWorld self.new (after_leaving self.old.cluster w node) }
        ensures answer { result ≡ answer.Lost node }
        ensures same { IsOfSame self.old self.new }
    {
        self.faults += 1;
        set_node(&mut self.nodes, node, left_behind(self.cluster));
        leave_cells(self.cluster, node, &mut self.cells);
        Answer::Lost { node }
    }

    /// A node joins. It is said so. It asks that fewer than 16 faults were given.
    pub fn join(&mut self, node: NodeId) -> Answer
        requires { self.old.faults < 16 }
        ensures shows { (w : RealWorld) → ShowsWorld self.old w → ShowsWorld self.new (after_joining self.old.cluster w node) }
        ensures answer { result ≡ answer.Up node }
        ensures same { IsOfSame self.old self.new }
    {
        self.faults += 1;
        set_node(&mut self.nodes, node, Standing::Up);
        clear_node(self.cluster, node, &mut self.cells);
        Answer::Up { node }
    }

    /// An action does what it is for, and its agent says what is so.
    fn end_truly(&mut self, number: u32, action: Action) -> Answer
        ensures answer { (w : RealWorld) → ShowsWorld self.old w → result ≡ answer_by_fate self.old.cluster w fate.True number action }
        ensures shows { (w : RealWorld) → ShowsWorld self.old w → ShowsWorld self.new (after_end self.old.cluster w fate.True action) }
        ensures same { IsOfSame self.old self.new }
    {
        let code = true_code(self.cluster, action, self.cells.as_slice());
        act(self.cluster, action, &mut self.cells);
        fence(&mut self.nodes, action);
        Answer::End { number, code }
    }

    /// An action does what it is for, and its agent says that it failed.
    fn end_badly(&mut self, number: u32, action: Action) -> Answer
        requires { self.old.faults < 16 }
        ensures answer { (w : RealWorld) → ShowsWorld self.old w → result ≡ answer_by_fate self.old.cluster w fate.DoneBadly number action }
        ensures shows { (w : RealWorld) → ShowsWorld self.old w → ShowsWorld self.new (after_end self.old.cluster w fate.DoneBadly action) }
        ensures same { IsOfSame self.old self.new }
    {
        self.faults += 1;
        act(self.cluster, action, &mut self.cells);
        Answer::End {
            number,
            code: ERR_GENERIC,
        }
    }

    /// An action does nothing, and its agent says that it failed.
    fn end_undone(&mut self, number: u32, action: Action) -> Answer
        requires { self.old.faults < 16 }
        ensures answer { (w : RealWorld) → ShowsWorld self.old w → result ≡ answer_by_fate self.old.cluster w fate.Undone number action }
        ensures shows { (w : RealWorld) → ShowsWorld self.old w → ShowsWorld self.new (after_end self.old.cluster w fate.Undone action) }
        ensures same { IsOfSame self.old self.new }
    {
        self.faults += 1;
        undo(self.cluster, action, &mut self.cells);
        Answer::End {
            number,
            code: ERR_GENERIC,
        }
    }

    /// An action isn't done in time. A start may come true later.
    fn time_out(&mut self, number: u32, action: Action) -> Answer
        requires few { self.old.faults < 16 }
        requires calm { self.old.rising ≡ None }
        ensures answer { (w : RealWorld) → ShowsWorld self.old w → result ≡ answer_by_fate self.old.cluster w fate.TimedOut number action }
        ensures shows { (w : RealWorld) → ShowsWorld self.old w → ShowsWorld self.new (after_end self.old.cluster w fate.TimedOut action) }
        ensures same { IsOfSame self.old self.new }
    {
        self.faults += 1;
        self.rising = give_up(self.cluster, action, &mut self.cells);
        Answer::Timeout { number }
    }

    /// The action of this number ends. What is said of it. It asks that nothing comes up, and, of a fault, that fewer than
    /// 16 were given.
    pub fn end(&mut self, number: u32, action: Action, fate: Fate) -> Answer
        requires few { is_fault fate ≡ true → self.old.faults < 16 }
        requires calm { self.old.rising ≡ None }
        ensures answer { (w : RealWorld) → ShowsWorld self.old w → result ≡ answer_by_fate self.old.cluster w fate number action }
        ensures shows { (w : RealWorld) → ShowsWorld self.old w → ShowsWorld self.new (after_end self.old.cluster w fate action) }
        ensures same { IsOfSame self.old self.new }
    {
        match fate {
            Fate::True => self.end_truly(number, action),
            Fate::DoneBadly => self.end_badly(number, action),
            Fate::Undone => self.end_undone(number, action),
            Fate::TimedOut => self.time_out(number, action),
        }
    }
}
