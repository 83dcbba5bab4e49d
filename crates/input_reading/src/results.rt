//! The result lines: answers.

// The result lines.
pub mod answers;
pub mod result_lines;
