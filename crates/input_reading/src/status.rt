//! The status section: the first journal.

// The status.
pub mod first_journal;
pub mod line_meaning;
pub mod status_lines;
pub mod told_keys;
pub mod told_lines;
pub mod whole;
