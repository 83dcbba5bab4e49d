//! Why a leaf has no target.

// Why a leaf has no target.
pub mod holders;
pub mod missing;
pub mod plain;
