//! A transition as it is carried out: actions begin, and one answer after another is taken. And a run: transition after
//! transition, each with the plan for the journal so far, until all is done and nothing more is said (Pacemaker
//! Administration, "Transitions"; when a run ends is a rule of this project).
#![tactic(auto)]

// One transition: what is kept of it, where its answers come from, and how it goes to its end.
mod transition;

// A run: transition after transition, told as it goes, or kept.
mod run;

pub use run::kept_run::replay;
pub use run::stop::ReplayStop;
pub use run::watched_run::replay_watched;
pub use transition::course::{NotBegun, Parts};
pub use transition::ends::{End, WatchedEnd};
pub use transition::executor::{Executor, NotMade};
pub use transition::failing::Failing;
pub use transition::flight::InFlight;
pub use transition::known_journal::KnownJournal;
pub use transition::meaning::is_success;
pub use transition::outcomes::{Next, Outcomes};
pub use transition::over_source::{run_transition, run_watched};
pub use transition::script::Script;
pub use transition::taking::Unexpected;
pub use transition::waiting::Waiting;
pub use transition::watcher::{Heard, Unwatched, Watcher};
