// What a deck is made of: a card, what stands in its columns, and the part of it that holds its cells; and what reading and
// writing a deck answer.
#![tactic(auto)]

pub mod answer;
pub mod bytes;
pub mod card;
