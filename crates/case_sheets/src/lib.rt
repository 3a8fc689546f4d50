// What the programs that run cases lend: sheets that are made, and tables of given lengths.
#![tactic(auto)]

pub mod lengths;
pub mod lent;
pub mod made;
