// The level drawing: the tables of levels 0 to 3 of a sheet.
#![tactic(auto)]

mod along;
pub mod draw;
mod fill;
mod plain;
