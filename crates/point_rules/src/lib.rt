// The rules at a point: the next line, and what the point becomes when lines are taken.
#![tactic(auto)]

pub mod turn;
