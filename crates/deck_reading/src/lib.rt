// Reading a deck: the cards are judged one by one, then the cells of its sheet are copied into a table. One sheet has one deck.
#![tactic(auto)]

mod fill;
mod judge;
pub mod read;
