// Step 3 of the removal rule: points that two edges meet at go.
#![tactic(auto)]

pub mod smooth;
