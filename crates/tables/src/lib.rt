// Are the eight tables as document 01 asks: rows, totals, and the checks before each step.
#![tactic(auto)]

pub mod checks;
pub mod good;
pub mod limits;
pub mod scan;
pub mod totals;
