//! The total of each decision on each node, before colocations.

// Rows of the terms that each node has.
pub mod adding;
pub mod fitting;
pub mod putting;
pub mod row_totals;

// What a leaf has of its own.
pub mod locations;
pub mod own;
pub mod own_rows;

// What others lend to it.
pub mod lending_rows;
pub mod ties;

// How much it wants to be promoted.
pub mod promotions;

// The totals of all decisions, before colocations.
pub mod laws;
pub mod table;
