//! The words of the command line, and the top call that carries them out.
//!
//! `check`, `scores`, `graph`, `survive`, `audit` and `world` read a whole input. `replay` reads its result lines while
//! it writes the run, and `gen` reads nothing.
//!
//! Below it stands an auditor of written runs: whether their lines are those of the run of their own answers (rule of
//! this project).
#![tactic(auto)]

// What an audit says.
mod verdict;

// The answers of a written run.
mod answers;

// The auditor, which follows the run of these answers line by line.
mod auditing;
mod auditor;
mod same_line;

// The top call, and its words.
mod audit_word;
mod beginning;
mod check;
mod counts;
mod gen_summary;
mod graph;
mod help;
mod input_word;
mod live;
mod losses;
mod own_text;
mod scores;
mod status;
mod summary;
mod text_word;
mod top;
mod why;
mod words;
mod world;

// What follows from the definitions.
mod audit_laws;
mod laws;

pub use audit_laws::{
    faulty_lines_are_unique, faulty_runs_are_not_lawful, what_replay_writes_is_lawful,
    whole_runs_are_lawful,
};
pub use auditing::audit;
pub use help::{HELP, VERSION};
pub use laws::{
    outputs_are_unique, summaries_are_unique, there_is_an_end, what_check_writes_is_read_again,
    what_comes_is_the_input, what_gen_sums_up_is_a_safe_run, what_replay_writes_is_one_safe_run,
    what_replay_writes_is_read_again, what_world_writes_is_a_safe_run,
};
pub use status::Status;
pub use top::run;
pub use verdict::{Clause, Verdict};
