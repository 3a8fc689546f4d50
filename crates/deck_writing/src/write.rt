ghost use Rattle.std.specs.Prelude.{◌≡◌, true, ◌++◌, ◌*◌, ◌≤◌, length, take, drop};
ghost use Rattle.laws.specs.Every.{every};
ghost use Rattle.deck_card.specs.Card.{visible, long, card};
ghost use Rattle.deck_card.specs.Outcome.{write_outcome};
ghost use Rattle.deck_layout.specs.Layout.{heading, row_cards};
ghost use Rattle.deck_writing.specs.Writing.{row_deck, deck_length, writing};

use crate::label;
use deck_card::answer::WriteRefusal;
use deck_card::bytes;
use deck_card::card::LONG;
use sheet_size::Size;

// Writes the header's card.
fn put_header(size: Size, deck: &mut [u8])
    requires { long ≤ length deck.old }
    ensures { deck.new ≡ card 1 (heading size.width size.height) ++ drop long deck.old }
{
    let content = deck_layout::heading(size.width, size.height);
    bytes::put(&mut deck[..LONG], &content, 1);
}

// Writes the cards of the rows, after the header's card.
fn put_rows(size: Size, sheet: &[u16], deck: &mut [u8])
    requires cells { length sheet.now ≡ size.width * size.height }
    requires cards { length deck.old ≡ deck_length size.width size.height }
    requires labels { every visible sheet.now ≡ true }
    ensures { deck.new
        ≡ take long deck.old ++ row_deck size.width (row_cards size.width size.height) 2 sheet.now }
{
    let mut rest = sheet;
    let mut at = LONG;
    for number in 2..deck_layout::row_cards(size) + 2 {
        let held = deck_layout::held(size.width, number) as usize;
        let (cells, after) = rest.split_at(held);
        bytes::put(&mut deck[at..at + LONG], cells, number);
        rest = after;
        at += LONG;
    }
}

// Writes the deck of a sheet. Refusals: Size where the width or the height is not 1 to the greatest, Sheet where the sheet's
// length is not the width times the height, Deck where the deck's length is not that of the sheet's deck, Label where a label is
// not 33 to 126. A refusal leaves the bytes as they were.
pub fn write(width: u16, height: u16, sheet: &[u16], deck: &mut [u8]) -> Result<(), WriteRefusal>
    ensures { write_outcome result deck.new ≡ writing width height sheet.now deck.old }
{
    let size = Size::new(width, height).ok_or(WriteRefusal::Size)?;
    if sheet.len() != (width * height) as usize {
        return Err(WriteRefusal::Sheet);
    }
    if deck.len() != LONG * (deck_layout::row_cards(size) as usize + 1) {
        return Err(WriteRefusal::Deck);
    }
    if !label::visible(sheet) {
        return Err(WriteRefusal::Label);
    }
    put_header(size, deck);
    put_rows(size, sheet, deck);
    Ok(())
}
