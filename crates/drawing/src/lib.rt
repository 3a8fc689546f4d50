// The whole drawing of a sheet: its seven tables, and the parts that they are drawn in.
#![tactic(auto)]

pub mod draw;
pub mod parts;
