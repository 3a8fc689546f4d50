// Step 1 of the removal rule: the lines that two regions share go. It visits the darts of the two regions alone, in a list.
#![tactic(auto)]

pub mod chase;
pub mod shared;
