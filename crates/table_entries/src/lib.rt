// Tables: an entry read or set, a table cleared or trimmed, two tables compared; the lines present at a point.
#![tactic(auto, unfolding(point_darts::specs::Dart::mark, point_darts::specs::Dart::dart))]

pub mod entry;
pub mod present;
