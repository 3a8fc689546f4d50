// Joining by the removal rule, in the tables of a drawing that is known to be one.
#![tactic(auto)]

pub mod apply;
