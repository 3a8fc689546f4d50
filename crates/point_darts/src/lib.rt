// The plane of a sheet: its size, its points and darts.
#![tactic(auto)]

pub mod dart;
