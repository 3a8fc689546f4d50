// Regions of a sheet: the first cell of the region of each cell, the names, and the names with the outside round them.
#![tactic(auto)]

pub mod cells;
pub mod frame;
pub mod names;
