// Joining regions of a drawing, two or by a list: the check, the names, then the removal rule.
#![tactic(auto)]

pub mod list;
pub mod regions;
