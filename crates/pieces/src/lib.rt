// A list of pieces (document 02, W1): rows of a function's row and its start in the image.
#![tactic(auto)]

pub mod fields;
pub mod order; // order.rt: the list that a link gives
pub mod tiles; // tiles.rt: a list that an examiner is shown
