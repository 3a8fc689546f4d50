// Two editors at one sheet: starting a drawing with owners, and joining as one of the editors.
#![tactic(auto)]

pub mod join;
pub mod start;
