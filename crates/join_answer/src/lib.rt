// What joining answers to two names of a drawing, whether they share a line, and what is judged between 4 and 5.
#![tactic(auto)]

mod adjoin;
pub mod asked;
pub mod judge;
