//! Which leaves migrate.

ghost use Rattle.std.specs.Prelude.{◌≡◌, ◌<◌, length, IfOk, IfSome, vec_len, All};
ghost use Rattle.planner.specs.Inner.Flags.{send_if, with_flag};
ghost use Rattle.loops.specs.Ranks.{AreMigrating};

use cluster_types::{Action, LeafId};
use listed::none_set;
use std::alloc::{AllocError, Global};

/// The leaf that the action sends, if it sends one.
fn send_if(action: Action) -> Option<LeafId>
    ensures { result ≡ send_if action }
{
    match action {
        Action::MigrateTo { leaf, .. } => Some(leaf),
        _ => None,
    }
}

/// Sets the flag of the leaf, if there is one.
fn set_flag(flags: &mut Vec<bool>, leaf: Option<LeafId>)
    requires { IfSome leaf (λ leaf. leaf < vec_len flags.old) }
    ensures long { vec_len flags.new ≡ vec_len flags.old }
    ensures set { flags.new.items ≡ with_flag flags.old.items leaf }
{
    if let Some(leaf) = leaf {
        flags[leaf as usize] = true;
    }
}

/// Of each leaf whether it migrates, in time linear in the leaves and the actions. It asks that each leaf that is sent is one of so many.
pub fn migrating_flags(
    alloc: Global,
    leaves: u32,
    actions: &[Action],
) -> Result<Vec<bool>, AllocError>
    requires inside { All (λ a. IfSome (send_if a) (λ leaf. leaf < leaves)) actions.now }
    ensures { IfOk result (λ flags. AreMigrating actions.now flags.items) }
{
    let mut flags = none_set(alloc, leaves)?;
    for action in actions {
        set_flag(&mut flags, send_if(*action));
    }
    Ok(flags)
}
