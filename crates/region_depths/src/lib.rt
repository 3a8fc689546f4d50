// The tree of regions, from the table of parents: the depth of one name, and of every name at once.
#![tactic(auto, unfolding(point_darts::specs::Dart::mark))]

pub mod census;
pub mod tree;
