//! The cluster, what happened in it and what is planned for it, and the definitions of every rule.
#![tactic(auto)]

mod befores;
mod cells;
mod cluster;
pub mod exit_codes;
mod fields;
mod graph;
mod graph_edges;
mod journal;
mod laws;
mod leaf;
mod moment;
mod node;
mod placement;
mod plan;
mod report;
mod rules;
mod run;
mod states;

pub use cells::{cell_place, is_same_cell};
pub use cluster::{Cluster, Policy, Properties};
pub use edges::Edge;
pub use faults::NoMemory;
pub use graph::Graph;
pub use graph_edges::Edges;
pub use journal::{Action, Answer, Event, Journal, Outcome, Promotion};
pub use laws::{
    cycled_is_the_least_set, each_has_its_state, first_journal_has_nothing_in_flight,
    first_journal_is_in_order, held_is_the_least_set, loads_after_a_cell, may_after_one_more,
    moments_stay_below_their_limit, numbers_are_unique, paths_are_computed, precedence_is_computed,
    predecessors_first, promoted_after_one_more, promoted_may_run, rising_edges_make_a_graph,
    silent_ends_are_of_the_first_in_flight, transitions_are_eager,
};
pub use leaf::{Leaf, LeafId, Monitor, OnFail, Op, Role, TargetRole};
pub use moment::moment_of;
pub use node::{Node, NodeId};
pub use placement::{Decided, Decision, NoReason, Pin, Placed, Table, Target, is_pinned, pin_of};
pub use plan::Plan;
pub use report::{Loss, Report};
pub use rules::{Colocation, Location, Order, OrderKind, RuleLocation};
pub use run::{Passed, PassedEnd, Run, RunLine};
pub use states::{Cell, CellState, NodeState, Rights, States, is_online};
