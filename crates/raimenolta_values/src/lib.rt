// What an answer tells a caller in another language, who takes no enum: its number, and its values in lent slots.
#![tactic(auto)]

pub mod count;
pub mod list;
pub mod read;
