ghost use Rattle.std.specs.Prelude.{◌≡◌, true};
ghost use Rattle.deck_card.specs.Card.{measured};
ghost use Rattle.deck_card.specs.Outcome.{fault_told};
ghost use Rattle.deck_faults.specs.Fault.{row};

use crate::form;
use deck_card::answer::Fault;
use deck_card::card::{BLANK, COLUMNS, HIGHEST, LOWEST};
use deck_card::{bytes, card};

// The fault of the card with a number that holds so many cells: its form's, or that a cell is not 33 to 126, or that a column
// after the cells is not blank.
pub fn refusal(card: &[u8], cells: u16, number: u16) -> Result<(), Fault>
    requires { measured cells ≡ true }
    ensures { fault_told result ≡ row cells number card.now }
{
    form::refusal(card, number)?;
    if !bytes::all_between(card::part(cells, card), LOWEST, HIGHEST) {
        return Err(Fault::Cell);
    }
    let end = cells as usize;
    if !bytes::all_between(&card[end..COLUMNS], BLANK, BLANK) {
        return Err(Fault::Blank);
    }
    Ok(())
}
