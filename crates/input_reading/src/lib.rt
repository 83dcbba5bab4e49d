//! What is read of a whole input: its configuration, its status, and its results or the run that it tells; or its first
//! fault. The status section is the first journal, and result lines are answers.
#![tactic(auto)]

// The words of a line by their places, with the numbers and the names of a cluster that they stand for.
mod words;

// What exit codes mean.
mod recovery;

// The result lines: answers.
mod results;

// The status section: the first journal.
mod status;

// Why a status or a result line isn't read.
mod history_fault;

// The whole input and its parts, or why it is refused.
mod input;

// The lines of a run.
mod run;

// What follows from the definitions.
mod grammar_laws;
mod history_laws;
mod laws;
mod line_laws;

pub use grammar_laws::{
    a_run_is_read_as_its_lines_say, a_status_is_read_as_its_lines_say,
    answers_of_result_lines_are_unique, facts_of_status_lines_are_unique,
    meanings_of_run_lines_are_unique, result_lines_are_read_as_they_say,
    result_lines_that_say_nothing_are_refused, results_are_read_as_their_lines_say,
    run_lines_are_read_as_they_say, run_lines_that_say_nothing_are_refused,
    status_lines_are_read_as_they_say, status_lines_that_say_nothing_are_refused,
};
pub use history_fault::{ResultCause, ResultFault, StatusCause, StatusFault};
pub use history_laws::first_journals_are_at_rest;
pub use input::cause::InputCause;
pub use input::fault::InputFault;
pub use input::reading::{Head, Input, MOST_BYTES, read_input, read_lone_head};
pub use input::trace::{Trace, read_trace};
pub use laws::{
    answers_that_are_read_fit, readings_are_unique, readings_of_a_trace_are_unique,
    the_limit_is_told, what_is_read_is_valid,
};
pub use line_laws::what_is_written_reads_again;
pub use recovery::{Recovery, class_of};
pub(crate) use results::answers::answer_of;
pub use results::result_lines::{ResultLine, read_result, read_results};
pub use run::run_reading::read_run;
pub use run::text::{RunText, RunTextLine, TraceFault};
pub use status::line_meaning::{Fact, NodeWord};
pub use status::whole::read_status;
pub use words::by_place::Words;
pub use words::number_words::code_of;
pub(crate) use words::number_words::interval_of;
pub use words::places::number_at;
pub(crate) use words::places::{code_at, end_at, leaf_at, node_at, seconds_at, word_at, yes_at};
pub use words::word_cause::WordCause;
