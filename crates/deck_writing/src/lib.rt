// Writing the deck of a sheet whose labels may stand on a card.
#![tactic(auto)]

mod label;
pub mod write;
