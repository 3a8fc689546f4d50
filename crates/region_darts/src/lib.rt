// The darts of each region, in lists: every dart leads to the next of its region, and two lists become one in a step.
#![tactic(auto, unfolding(point_darts::specs::Dart::mark))]

pub mod list;
