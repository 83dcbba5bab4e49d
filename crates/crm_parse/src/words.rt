//! The words with a meaning that a statement keeps as such.

/// A role that a rule may name: of a running resource, and of a promoted one (Pacemaker Explained, "Promotable clones").
#[derive(Clone, Copy, Debug, PartialEq, Eq)]
pub enum RoleWord {
    Started,
    Promoted,
}

/// The kind of an order (Pacemaker Explained, "Ordering Properties").
#[derive(Clone, Copy, Debug, PartialEq, Eq)]
pub enum KindWord {
    Mandatory,
    Optional,
    Serialize,
}

/// An action that an order may name (Pacemaker Explained, "Ordering Properties").
#[derive(Clone, Copy, Debug, PartialEq, Eq)]
pub enum ActionWord {
    Start,
    Stop,
    Promote,
    Demote,
}

/// What a statement of settings sets: options of the cluster, or the defaults of resources or of operations.
#[derive(Clone, Copy, Debug, PartialEq, Eq)]
pub enum SettingsWord {
    Property,
    RscDefaults,
    OpDefaults,
}
