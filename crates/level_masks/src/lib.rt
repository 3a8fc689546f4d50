// The lines at each point, at levels 0 and 1, as tables of masks.
#![tactic(auto)]

pub mod mask;
