ghost use Rattle.std.specs.Prelude.{◌≡◌};
ghost use Rattle.deck_card.specs.Outcome.{fault_told};
ghost use Rattle.deck_faults.specs.Fault.{form};

use deck_card::answer::Fault;
use deck_card::card::{COLUMNS, PLACES};
use deck_card::{bytes, card};

// The fault of the form of the card with a number, whatever its content: that it is missing, or no whole card, or does not bear
// the number.
pub fn refusal(card: &[u8], number: u16) -> Result<(), Fault>
    ensures { fault_told result ≡ form number card.now }
{
    if card.is_empty() {
        return Err(Fault::End);
    }
    if !card::whole(card) {
        return Err(Fault::Card);
    }
    if !bytes::agrees(card, &[], number, COLUMNS, COLUMNS + PLACES) {
        return Err(Fault::Number);
    }
    Ok(())
}
