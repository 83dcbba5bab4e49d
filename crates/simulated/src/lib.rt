//! A source of outcomes that simulates a cluster: its nodes come and go, and its agents do what they are for, or not. What
//! really runs there is always among what may run. The text of its run, with what really runs at its end, is made here;
//! and laws say that a simulated cluster has one run, and that its run has one text.
#![tactic(auto)]

// What there is to a simulated cluster.
mod real;
mod turn;

// What is kept of it.
mod acts;
mod cells;
mod nodes;
mod reality;
mod rising;

// What comes next of it.
mod ending;
mod turning;

// What really is at first.
mod first;
mod heard_cells;

// The source.
mod world;

// The text of its run, and in it what really runs, line by line.
mod living;
mod real_lines;
mod text;

// What follows from the definitions.
mod laws;
mod text_laws;
mod turn_laws;

// Its life, its run and its text are unique.
mod lives;
mod runs;

pub use laws::{
    each_moment_runs_what_may_run, no_start_really_makes_a_second_copy,
    worlds_that_agree_run_what_may_run,
};
pub use lives::{lives_are_unique, lives_go_on, steps_of_life_are_unique};
pub use real::{Real, Standing};
pub use reality::Reality;
pub use runs::{simulated_runs_are_unique, world_texts_are_unique};
pub use text::world_text;
pub use text_laws::what_is_real_at_the_end_may_run;
pub use turn::{Fate, Turn};
pub use turn_laws::{answers_of_worlds_apply, starts_make_no_second_copy, what_runs_may_run};
pub use world::World;
