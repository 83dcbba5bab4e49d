//! What an audit of a written run says.

/// What kind of line is due at a place of a run.
#[derive(Clone, Copy, Debug, PartialEq, Eq)]
pub enum Clause {
    /// The line that begins a transition.
    Transition,
    /// A line of where everything goes by its plan.
    Targets,
    /// The begin of an action.
    Begin,
    /// An answer that applies. While nothing is to be done, the run may also end.
    Answer,
    /// The line that ends a transition.
    Close,
}

/// Whether a written run is lawful.
#[derive(Clone, Copy, Debug, PartialEq, Eq)]
pub enum Verdict {
    /// Its lines are those of the whole run of its own answers.
    Yes,
    /// The first line that isn't the due one, and what is due there. Where the lines end too early, the line behind them.
    No { line: u32, clause: Clause },
}
