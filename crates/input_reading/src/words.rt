//! The words of a line by their places, with the numbers and the names of a cluster that they stand for.

// The words of a line by their places, with the numbers and the names of a cluster that they stand for.
pub mod by_place;
pub mod number_words;
pub mod places;
pub mod word_cause;
