//! A run over result lines as they come, each line written before the next one is waited for, to where its text ends (Pacemaker
//! Administration, "Transitions"; when a run ends is a rule of this project).
#![tactic(auto)]

// The head of an input.
mod head;

// Why no more answers come.
mod line_stop;

// What one line says.
mod at_hand;
mod line_saying;
mod place;

// One line after another.
mod result_reader;

// A source of answers.
mod answering;
mod course;
mod line_outcomes;

// A writer of the lines of a run.
mod held_text;
mod line_writer;
mod writing;

// How a run ends.
mod live_end;

// A run.
mod running;

// What follows from the definitions.
mod line_laws;
mod run_laws;

pub use head::{HeadStop, HeadText, read_head};
pub use held_text::HeldText;
pub use line_laws::{heads_are_as_they_are_said, lines_stand_behind_those_before};
pub use line_outcomes::LineOutcomes;
pub use line_stop::{LineCause, LineStop};
pub use line_writer::LineWriter;
pub use live_end::LiveEnd;
pub use run_laws::{ends_are_unique, lines_say_no_read_fault, runs_begin_what_is_due};
pub use running::run_live;
