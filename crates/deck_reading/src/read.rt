ghost use Rattle.std.specs.Prelude.{◌≡◌, length, drop};
ghost use Rattle.deck_card.specs.Card.{long};
ghost use Rattle.deck_card.specs.Outcome.{Sheet, read_outcome};
ghost use Rattle.deck_layout.specs.Layout.{row_cards};
ghost use Rattle.deck_reading.specs.Judging.{judged};
ghost use Rattle.deck_reading.specs.Reading.{room, cells, filled, reading};

use crate::{fill, judge};
use deck_card::answer::{Fault, ReadRefusal};
use deck_card::card;
use deck_card::card::LONG;
use sheet_size::Size;

// The length of the reader's cell table.
pub const CELLS: usize = 7920;

// Copies the cells of a deck that reads as a sheet into the cell table, and sets the rest of it to 0.
fn fill(deck: &[u8], size: Size, table: &mut [u16])
    requires reads { judged deck.now ≡ Sheet size.width size.height }
    requires has_room { length table.old ≡ room }
    ensures { table.new ≡ filled (cells size.width (row_cards size.width size.height) 2 (drop long deck.now)) }
{
    let mut rest = &deck[LONG..];
    let mut from = 0;
    for number in 2..deck_layout::row_cards(size) + 2 {
        let held = deck_layout::held(size.width, number);
        from = fill::copy(card::part(held, judge::next(rest)), table, from);
        rest = &rest[LONG..];
    }
    table[from..].fill(0);
}

// Reads a deck: answers the size of its sheet, with the cells in row order at the front of the cell table and 0 after them.
// Refusals, each with the number of the card: Table where the table's length is not 7,920, then card by card End, Card, Number,
// then Header for the header or Cell and Blank from the left for a row, and last End for bytes after the last card. A refusal
// leaves the table as it was.
pub fn read(deck: &[u8], cells: &mut [u16]) -> Result<Size, ReadRefusal>
    ensures { read_outcome result cells.new ≡ reading deck.now cells.old }
{
    if cells.len() != CELLS {
        return Err(ReadRefusal {
            fault: Fault::Table,
            card: 0,
        });
    }
    let size = judge::judged(deck)?;
    fill(deck, size, cells);
    Ok(size)
}
