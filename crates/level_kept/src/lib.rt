// The points that levels 2 and 3 keep.
#![tactic(auto)]

pub mod keep;
