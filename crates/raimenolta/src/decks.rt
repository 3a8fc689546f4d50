// Land decks: reading one, writing one, and the number for a row's card.
ghost use Rattle.std.specs.Prelude.{◌≡◌, [], ◌∷◌};
ghost use Rattle.deck_card.specs.Card.{part_refusal};
ghost use Rattle.deck_reading.specs.Reading.{reading};
ghost use Rattle.deck_writing.specs.Writing.{writing};
ghost use Rattle.paper.specs.Refusal.{ended};
ghost use Rattle.raimenolta.specs.Slot.{carded, slotted_twice};

use deck_card::answer::{part_number, write_number};
use raimenolta_values::read;

// Reads a deck into the cell table. When it is done the size holds the width and the height, and the card is left as it
// was; a refusal leaves the size, and the card holds the number of the card. Refusals 26, then card by card 25, 20, 22, then
// 21 for the header or 23 and 24 from the left for a row, and last 25 for bytes after the last card.
#[unsafe(no_mangle)]
pub extern "C" fn raimenolta_read(
    deck: &[u8],
    cells: &mut [u16],
    size: &mut [u16; 2],
    card: &mut u16,
) -> u16
    ensures { ended result [] (cells.new ∷ size.new ∷ (card.new ∷ []) ∷ []) [] ≡
        slotted_twice (carded (reading deck.now cells.old)) size.old (card.old ∷ []) }
{
    let answer = deck_reading::read::read(deck, cells);
    read::put(read::numbers(answer), size, card)
}

// Writes the deck of a sheet. Refusals 1, 3, 4 and 27.
#[unsafe(no_mangle)]
pub extern "C" fn raimenolta_write(width: u16, height: u16, sheet: &[u16], deck: &mut [u8]) -> u16
    ensures { ended result [] (deck.new ∷ []) [] ≡ carded (writing width height sheet.now deck.old) }
{
    write_number(deck_writing::write::write(width, height, sheet, deck))
}

// The number of the refusal for which the part of a row's card that holds its cells is empty: 1 or 20, else 0.
#[unsafe(no_mangle)]
pub extern "C" fn raimenolta_part_refusal(width: u16, card: &[u8]) -> u16
    ensures { result ≡ part_refusal width card.now }
{
    part_number(deck_card::card::part_refusal(width, card))
}
