// The check whether seven tables are the drawing of some sheet: all is drawn again from the labels that the sides tell.
#![tactic(auto)]

mod agree;
pub mod check;
pub mod labels;
