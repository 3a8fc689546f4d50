// The turns of the curves of a drawing.
#![tactic(auto)]

pub mod turns;
