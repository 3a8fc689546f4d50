// The tables of the programs that run cases: holding them, and writing what a call answers.
#![tactic(auto)]

pub mod show;
pub mod tables;
