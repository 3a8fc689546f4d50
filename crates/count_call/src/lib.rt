// Depth and hole count of the regions of a drawing, and the turns of its curves.
#![tactic(auto)]

pub mod count;
mod given;
pub mod turns;
