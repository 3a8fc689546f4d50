// Holes: the pieces that a region lies round, of one name and of every name at once.
#![tactic(auto)]

pub mod holes;
pub mod round;
