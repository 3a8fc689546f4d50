// Totals: how many cells and how many border lines each region has, from the names with the outside round them.
#![tactic(auto, unfolding(point_darts::specs::Dart::mark))]

mod tally;
pub mod total;
