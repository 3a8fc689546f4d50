ghost use Rattle.std.specs.Prelude.{◌≡◌, take};
ghost use Rattle.deck_card.specs.Card.{long};
ghost use Rattle.deck_card.specs.Outcome.{verdict};
ghost use Rattle.deck_layout.specs.Layout.{row_cards};
ghost use Rattle.deck_reading.specs.Judging.{rows, judged};

use deck_card::answer::{Fault, ReadRefusal};
use deck_card::card::LONG;
use deck_faults::{header, row};
use sheet_size::Size;

// The first card of the bytes that are left: the next 81 of them, or all.
pub fn next(rest: &[u8]) -> &[u8]
    ensures { result.now ≡ take long rest.now }
{
    &rest[..LONG.min(rest.len())]
}

// The answer to the bytes after the header of a sheet of a size.
fn rows(deck: &[u8], size: Size) -> Result<Size, ReadRefusal>
    ensures { verdict result ≡ rows size.width size.height (row_cards size.width size.height) 2 deck.now }
{
    let end = deck_layout::row_cards(size) + 2;
    let mut rest = deck;
    for card in 2..end {
        let held = deck_layout::held(size.width, card);
        row::refusal(next(rest), held, card).map_err(|fault| ReadRefusal { fault, card })?;
        rest = &rest[LONG..];
    }
    if !rest.is_empty() {
        return Err(ReadRefusal {
            fault: Fault::End,
            card: end,
        });
    }
    Ok(size)
}

// The answer to the bytes of a deck: the size of its sheet, or the first refusal, card by card.
pub fn judged(deck: &[u8]) -> Result<Size, ReadRefusal>
    ensures { verdict result ≡ judged deck.now }
{
    let size = header::size(next(deck)).map_err(|fault| ReadRefusal { fault, card: 1 })?;
    rows(&deck[LONG..], size)
}
