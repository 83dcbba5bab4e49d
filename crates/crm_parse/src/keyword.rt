//! The statements, by their first words.

use crate::SettingsWord;

/// A statement, by its first word.
#[derive(Clone, Copy)]
pub enum Keyword {
    Node,
    Primitive,
    Group,
    Clone,
    /// `ms` or `master`.
    Ms,
    Location,
    Colocation,
    Order,
    Settings(SettingsWord),
    Kept,
}
