// What joining as an editor answers: to owners and an editor's number, and to two names of a drawing.
#![tactic(auto)]

pub mod asked;
pub mod owners;
