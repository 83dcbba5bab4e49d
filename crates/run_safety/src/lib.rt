//! Laws of transitions and runs, over the definitions alone: each is safe, and how a run goes and ends is one.
#![tactic(auto)]

// Which transitions are those of plans, and that a journal has one plan.
mod one_plan;
mod plans;

// What holds whatever is answered.
mod promises;
mod rest;

// Where a transition and a run end.
mod ends;
mod run_ends;
mod runs;

// How a run goes.
mod answer_lines;
mod counts;
mod journals;
mod kept_lines;
mod laws;
mod parts;

pub use answer_lines::answers_print_their_lines;
pub use counts::{
    enough_transitions_are_allowed, lines_between_transitions_end_one,
    no_run_is_whole_where_answers_lack, nothing_is_silent_where_answers_lack, transitions_are_few,
};
pub use ends::complete_transitions_end_in_targets;
pub use journals::{
    moments_stay_bounded, nothing_is_in_flight_between_transitions,
    safe_runs_keep_journals_in_order,
};
pub use kept_lines::{
    events_between_transitions_add_their_lines, one_more_transition_adds_its_lines,
    runs_can_be_kept,
};
pub use laws::{
    continuations_of_runs_are_unique, ends_of_transitions_are_unique, one_of_two_runs_goes_on,
    steps_are_unique, transitions_are_parts_of_runs,
};
pub use one_plan::plans_are_unique;
pub use parts::{
    runs_go_on, runs_so_far_are_not_cut, runs_so_far_are_unique, stopped_runs_begin_the_whole_run,
};
pub use plans::plans_are_carried_out;
pub use promises::{
    migrations_have_their_leaf_alone, no_forbidden_neighbour, no_second_copy, no_second_promotion,
    transitions_are_safe,
};
pub use rest::{both_say_what_is_in_flight, nothing_stays_in_flight, transitions_stay_in_order};
pub use run_ends::{
    cut_runs_are_unique, journals_grow, runs_begin_the_cut_run, runs_begin_the_whole_run,
    whole_runs_are_not_cut, whole_runs_are_unique,
};
pub use runs::runs_are_safe;
