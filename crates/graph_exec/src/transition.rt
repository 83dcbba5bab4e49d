//! One transition: what is kept of it, where its answers come from, and how it goes to its end.

// What an event means for a transition.
pub mod meaning;

// Which actions of a graph may begin, as others succeed.
pub mod queue;
pub mod waiting;

// What is kept of a transition: its journal, and which actions are in flight.
pub mod flight;
pub mod known_journal;
pub mod log;

// Where the answers come from, and who is told.
pub mod failing;
pub mod outcomes;
pub mod script;
pub mod watcher;

// A transition, step by step.
pub mod applying;
pub mod course;
pub mod executor;
pub mod taking;

// A transition over a source, to its end.
pub mod ends;
pub mod over_source;
pub mod rounds;
