// Labels that may stand on a card.
ghost use Rattle.std.specs.Prelude.{◌≡◌};
ghost use Rattle.laws.specs.Every.{every};
ghost use Rattle.deck_card.specs.Card.{visible};

use deck_card::card;

const LOWEST: u16 = card::LOWEST as u16;

const HIGHEST: u16 = card::HIGHEST as u16;

// Whether each label may stand on a card: 33 to 126. One line, as for bytes in deck_card; a generic function would be no shorter.
pub fn visible(sheet: &[u16]) -> bool
    ensures { result ≡ every visible sheet.now }
{
    sheet.iter().all(|label| (LOWEST..=HIGHEST).contains(label))
}
