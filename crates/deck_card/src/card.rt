ghost use Rattle.std.specs.Prelude.{◌≡◌};
ghost use Rattle.deck_card.specs.Card.{whole, part, part_refusal};
ghost use Rattle.deck_card.specs.Outcome.{part_number};

use crate::answer::PartRefusal;

// Columns 1 to 72 hold a card's content.
pub const COLUMNS: usize = 72;

// The columns after those hold the digits of its number.
pub const PLACES: usize = 8;

// The length of a card, its line feed included.
pub const LONG: usize = COLUMNS + PLACES + 1;

pub const BLANK: u8 = 32;

pub const FEED: u8 = 10;

// The bytes that may stand in a cell are from the lowest to the highest.
pub const LOWEST: u8 = 33;

pub const HIGHEST: u8 = 126;

// Whether the bytes are those of one card: 80 bytes and a line feed.
pub fn whole(bytes: &[u8]) -> bool
    ensures { result ≡ whole bytes.now }
{
    if bytes.len() != LONG {
        return false;
    }
    bytes[COLUMNS + PLACES] == FEED
}

// Why the part of a card is empty: the width, how many cells this card holds, is not 1 to 72, or the card is not 80 bytes and a
// line feed, in this order; else none.
#[tactic(auto, unfolding(crate::specs::Card::columns, crate::specs::Card::measured, crate::specs::Card::part_refusal))]
pub fn part_refusal(width: u16, card: &[u8]) -> Option<PartRefusal>
    ensures { part_number result ≡ part_refusal width card.now }
{
    if !(1..=COLUMNS).contains(&(width as usize)) {
        return Some(PartRefusal::Width);
    }
    if !whole(card) {
        return Some(PartRefusal::Card);
    }
    None
}

// The part of a lent card that holds its cells: its first bytes, as many as the width says. A row wider than a card has two
// cards, each with a width of its own. The part is empty exactly where part_refusal tells a refusal. Empty or not, it begins
// where the card begins: ptr is where a slice begins.
pub fn part<'a>(width: u16, card: &'a [u8]) -> &'a [u8]
    ensures { (result.now ≡ part width card.now) × (result.ref_ptr ≡ card.entry.ref_ptr) }
{
    if part_refusal(width, card).is_some() {
        return &card[..0];
    }
    &card[..width as usize]
}
