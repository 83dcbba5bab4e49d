//! What events show of nodes and of quorum.

ghost use Rattle.std.specs.Prelude.{◌≡◌, ◌++◌, ◌∷◌, [], ℕ, List, IfOk};
ghost use Rattle.cluster_types.specs.declared.journal.Event.{Event as EventOf};
ghost use Rattle.cluster_types.specs.Journals.{sign_of};
ghost use Rattle.state_unpack.specs.Inner.CellsKept.{quorum_after};
ghost use Rattle.state_unpack.specs.Signs.{ShowsSigns};
ghost use Rattle.state_unpack.specs.Inner.Signs.{shown_of, state_by_sign};

use cluster_types::exit_codes::SUCCESS;
use cluster_types::{Action, Event, NodeId, NodeState, Outcome};
use std::alloc::{AllocError, Global};

/// What an event shows of a node.
#[derive(Clone, Copy)]
pub enum Sign {
    Joined,
    WentDown,
    WasLost,
    WasFenced,
}

/// The node of which the event shows something, and what.
fn shown(event: Event) -> Option<(NodeId, Sign)>
    ensures { (n : ℕ) → sign_of n event ≡ shown_of n result }
{
    match event {
        Event::Up { node } => Some((node, Sign::Joined)),
        Event::Down { node } => Some((node, Sign::WentDown)),
        Event::Lost { node } => Some((node, Sign::WasLost)),
        Event::Ended {
            action: Action::Fence { node },
            outcome: Outcome::Code(SUCCESS),
            ..
        } => Some((node, Sign::WasFenced)),
        _ => None,
    }
}

/// Nothing is shown of so many nodes.
pub fn nothing_shown(alloc: Global, nodes: usize) -> Result<Vec<Option<Sign>>, AllocError>
    ensures { IfOk result (λ signs. ShowsSigns nodes [] signs.items) }
{
    let mut signs = Vec::with_capacity(alloc, nodes)?;
    while signs.len() < nodes {
        signs.push(None)?;
    }
    Ok(signs)
}

/// Keeps what the event shows.
pub fn show(event: Event, signs: &mut Vec<Option<Sign>>)
    ensures { (nodes : ℕ) (before : List EventOf) → ShowsSigns nodes before signs.old.items → ShowsSigns nodes (before ++ event ∷ []) signs.new.items }
{
    if let Some((node, sign)) = shown(event) {
        if (node as usize) < signs.len() {
            signs[node as usize] = Some(sign);
        }
    }
}

/// Whether there is quorum after one more event, where there was or wasn't.
pub fn quorum_after(before: bool, event: Event) -> bool
    ensures { result ≡ quorum_after before event }
{
    match event {
        Event::Quorum { yes } => yes,
        _ => before,
    }
}

/// The state of a node by the last that is shown of it, where a failure wants it fenced or doesn't (Pacemaker Explained, "Fencing").
pub fn state_by_sign(fencing: bool, to_blame: bool, sign: Option<Sign>) -> NodeState
    ensures { result ≡ state_by_sign fencing to_blame sign }
{
    match sign {
        Some(Sign::Joined) if to_blame => NodeState::Unclean,
        Some(Sign::Joined) => NodeState::Online,
        Some(Sign::WasLost) if fencing => NodeState::Unclean,
        _ => NodeState::Offline,
    }
}
