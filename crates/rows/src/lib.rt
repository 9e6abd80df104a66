// The rows of the tables: their fields, and the row that a number names.
#![tactic(auto)]

pub mod fields;
pub mod find;
pub mod order;
