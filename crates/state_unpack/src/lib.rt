//! What a journal tells of nodes and resources: the failures, fail counts and bans, their states, where resources may
//! run, what the cluster may do, and which nodes are to be fenced.
#![tactic(auto)]

// What an outcome means: whether it is a failure, and what follows.
mod failing;
mod outcomes;

// What the failures of a cell come to.
mod counts;
mod tally;

// What an event shows of a cell.
mod opening;
mod promoting;
mod showing;

// What some events tell of a cell.
mod facts;
mod telling;

// What events show of nodes and of quorum.
mod signs;

// What is known by what is kept.
mod cells;
mod nodes;
mod states;

// What is kept while a journal goes on, and what a whole journal tells.
mod known_states;
mod unpacking;

// What the cluster may do, and which nodes are to be fenced.
mod acting;
mod fencing;

// What follows from the definitions.
mod laws;

pub use acting::rights;
pub use counts::{banned, failures};
pub(crate) use failing::{is_failure, is_outcome};
pub use fencing::to_fence;
pub use known_states::Known;
pub use laws::valid_clusters_have_few_monitors;
pub use outcomes::{is_among, is_bad, is_ignored};
pub(crate) use tally::Tally;
pub use unpacking::unpack;
