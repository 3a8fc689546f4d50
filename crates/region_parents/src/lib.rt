// Enclosure: each region's parent.
#![tactic(auto, unfolding(point_darts::specs::Dart::mark, point_darts::specs::Dart::dart))]

pub mod parent;
