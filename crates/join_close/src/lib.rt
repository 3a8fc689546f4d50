// Step 4 of the removal rule: closed curves move to their anchors.
#![tactic(auto)]

pub mod close;
