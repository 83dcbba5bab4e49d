//! How each decision came about: what each node counted for it, and why it was chosen or not. Its definitions, and their laws.
#![tactic(auto)]

mod laws;

pub use laws::{
    an_account_exists_and_is_unique, holders_hold_back, parts_add_up, scores_are_left,
    the_best_are_chosen, verdicts_are_true,
};
