// Step 5 of the removal rule, totals: what two regions have is added up under the smaller name.
#![tactic(auto)]

pub mod total;
