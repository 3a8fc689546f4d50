// Joining by a list as groups of cells: regions are put together name by name, and all is drawn once, at the end.
#![tactic(auto)]

mod each;
pub mod group;
mod pair;
mod share;
