// Levels 0 and 1: from the masks of the points the next and other of each dart, and its side.
#![tactic(auto)]

pub mod line;
pub mod side;
