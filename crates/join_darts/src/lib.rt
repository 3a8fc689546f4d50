// What the steps of the removal rule share: the darts that leave a point, lists of the darts of two regions, reversals, and links
// in two tables.
#![tactic(auto, unfolding(point_darts::specs::Dart::mark, point_darts::specs::Dart::dart, crate::specs::Listed::part))]

pub mod back;
pub mod ends;
pub mod list;
