// The files of the programs that run cases. A case is a line: a letter, and numbers parted by single blanks.
#![tactic(auto)]

pub mod cases;
pub mod file;
pub mod text;
