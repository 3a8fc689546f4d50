// Pieces of lines: the top of the piece of each point.
#![tactic(auto)]

pub mod points;
