// How a sheet is laid out on cards: which columns its header has, how many cards hold its rows, and how many cells each.
#![tactic(auto)]

ghost use Rattle.std.specs.Prelude.{◌≡◌};
ghost use Rattle.deck_layout.specs.Layout.{wide, heading, row_cards, held};

use deck_card::{bytes, card};
use sheet_size::Size;

// The greatest width of a row that takes one card.
const NARROW: u16 = card::COLUMNS as u16;

const BLANK: u16 = card::BLANK as u16;

// Whether rows of a width take two cards each.
#[tactic(auto, unfolding(deck_card::specs::Card::columns, crate::specs::Layout::wide))]
fn wide(width: u16) -> bool
    ensures { result ≡ wide width }
{
    NARROW < width
}

// How many cards hold the rows of a sheet.
#[tactic(auto, using(sheet_size::proofs::Limit::within_limits), unfolding(crate::specs::Layout::row_cards))]
pub fn row_cards(size: Size) -> u16
    ensures { result ≡ row_cards size.width size.height }
{
    if wide(size.width) {
        2 * size.height
    } else {
        size.height
    }
}

// How many cells the card with a number holds on a sheet of a width. A wide row begins on a card with an even number.
#[tactic(auto, unfolding(deck_card::specs::Card::columns, crate::specs::Layout::wide, crate::specs::Layout::held))]
pub fn held(width: u16, number: u16) -> u16
    ensures { result ≡ held width number }
{
    if !wide(width) {
        return width;
    }
    if number % 2 == 0 {
        return NARROW;
    }
    width - NARROW
}

// Columns 1 to 11 of the header that names a width and a height, which need be no size: SHEET, a blank, two digits each for the
// width and the height, and a blank; of wide rows SHEET2, three digits for the width and two for the height.
pub fn heading(width: u16, height: u16) -> [u16; 11]
    ensures { result ≡ heading width height }
{
    let w2 = bytes::digit(width, 2) as u16;
    let w1 = bytes::digit(width, 1) as u16;
    let w0 = bytes::digit(width, 0) as u16;
    let h1 = bytes::digit(height, 1) as u16;
    let h0 = bytes::digit(height, 0) as u16;
    if wide(width) {
        return [83, 72, 69, 69, 84, 50, w2, w1, w0, h1, h0];
    }
    [83, 72, 69, 69, 84, BLANK, w1, w0, h1, h0, BLANK]
}
