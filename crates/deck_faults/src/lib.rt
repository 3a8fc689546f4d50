// What a card is refused for: its form, as the header with the size that it names, and as a row's card.
#![tactic(auto)]

pub mod form;
pub mod header;
pub mod row;
