// Levels 2 and 3: the links along the lines of level 1 from each kept point to the next.
#![tactic(auto)]

pub mod link;
