//! Laws of runs and of what is written of them: there is a run, its lines are lines of its cluster, they read again as the
//! same lines, and they are safe by themselves.
#![tactic(auto)]

mod over_lines;
mod read_again;
mod some_runs;

pub use over_lines::{journals_that_lines_tell_are_unique, lines_of_runs_are_safe};
pub use read_again::{
    runs_of_texts_read_again, runs_print_lines_of_their_cluster, texts_of_runs_read_again,
    what_is_read_fits,
};
pub use some_runs::there_is_a_run;
