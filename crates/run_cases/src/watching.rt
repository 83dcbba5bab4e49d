//! A watcher that follows lines.

ghost use Rattle.std.specs.Prelude.{◌≡◌, ◌≤◌};
ghost use Rattle.cluster_io.specs.Streams.{Rose};

use cluster_types::{Action, Answer, NodeId, Placed, Target};
use graph_exec::{Heard, Watcher};

/// A line that a watcher is told, in short.
#[derive(Clone, Copy, PartialEq)]
pub(crate) enum Line {
    /// The transition of this number, and the first node on which the first resource has a target.
    Transition(u32, Option<NodeId>),
    Begin(u32),
    Taken(Answer),
    Complete(u32),
    Aborted(u32),
}

/// A watcher that compares what it is told with some lines. It goes on so many times, and then stops.
#[derive(Drop)]
pub(crate) struct Follower<'a> {
    lines: &'a [Line],
    agrees: bool,
    left: u32,
    stops: u64,
}

impl<'a> Follower<'a> {
    pub fn new(lines: &'a [Line], left: u32) -> Follower<'a> {
        Follower {
            lines,
            agrees: true,
            left,
            stops: 0,
        }
    }

    /// So far it was told these lines, from the first on.
    pub fn agrees(&self) -> bool {
        self.agrees
    }

    /// It was told all of them.
    pub fn has_heard_all(&self) -> bool {
        self.agrees && self.lines.is_empty()
    }

    fn follow(&mut self, line: Line)
        ensures { self.new.stops ≡ self.old.stops }
    {
        match self.lines.split_first() {
            Some((expected, behind)) => {
                self.agrees = self.agrees && *expected == line;
                self.lines = behind;
            }
            None => self.agrees = false,
        }
    }

    fn hear(&mut self, line: Line) -> Heard
        ensures count { self.old.stops ≤ self.new.stops }
        ensures cause { result ≡ Heard.Stop → Rose self.old.stops self.new.stops }
    {
        self.follow(line);
        if self.left > 0 {
            self.left -= 1;
            return Heard::Go;
        }
        self.stops = self.stops.saturating_add(1);
        Heard::Stop
    }
}

fn first_node(placed: &Placed) -> Option<NodeId> {
    for node in 0..placed.table.nodes {
        if placed.table.target(0, node) != Target::Nowhere {
            return Some(node);
        }
    }
    None
}

impl<'a> Watcher for Follower<'a> {
    ghost is_of = { λ _ _. Unit {0} };

    ghost follows = { λ _ _ _. Unit {0} };

    ghost stopped = { λ _ _ _ _. Unit {0} };

    ghost quiet = { λ _. Unit {0} };

    ghost shown = { λ _ _ _. Unit {0} };

    ghost stops = { λ w. w.stops };

    ghost from_itself = { λ _. tt };

    ghost from_before = { λ _ _ _ _ _ _ later. later };

    ghost stopped_later = { λ _ _ _ _ _ _ _ later. later };

    fn planned(&mut self, transition: u32, placed: &Placed) -> Heard {
        self.hear(Line::Transition(transition, first_node(placed)))
    }

    fn begun(&mut self, number: u32, _action: Action) -> Heard {
        self.hear(Line::Begin(number))
    }

    fn taken(&mut self, answer: Answer) -> Heard {
        self.hear(Line::Taken(answer))
    }

    fn closed(&mut self, transition: u32, complete: bool) -> Heard {
        if complete {
            return self.hear(Line::Complete(transition));
        }
        self.hear(Line::Aborted(transition))
    }

    fn waits(&mut self) -> Heard {
        Heard::Go
    }
}
