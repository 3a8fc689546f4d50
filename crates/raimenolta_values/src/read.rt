ghost use Rattle.std.specs.Prelude.{◌≡◌};
ghost use Rattle.raimenolta_values.specs.Put.{numbers, refusal, size_held, card_held};

use deck_card::answer::ReadRefusal;
use sheet_size::Size;

// A width and a height, which need not be a size.
#[derive(Clone, Copy, Debug, PartialEq, Eq)]
pub struct Sides {
    pub width: u16,
    pub height: u16,
}

// The number of a refusal, and of the card.
#[derive(Clone, Copy, Debug, PartialEq, Eq)]
pub struct Refused {
    pub number: u16,
    pub card: u16,
}

// What a reader answers, in numbers.
#[tactic(auto, unfolding(crate::specs::Put::numbers))]
pub fn numbers(answer: Result<Size, ReadRefusal>) -> Result<Sides, Refused>
    ensures { result ≡ numbers answer }
{
    match answer {
        Ok(size) => Ok(Sides {
            width: size.width,
            height: size.height,
        }),
        Err(refusal) => Err(Refused {
            number: refusal.fault.into(),
            card: refusal.card,
        }),
    }
}

// Puts the size that a reader answers into one lent slot, or the card that it refused at into another, and leaves the
// other slot as it was. Answers the number of the refusal, 0 for done.
#[tactic(auto, unfolding(crate::specs::Put::refusal, crate::specs::Put::size_held, crate::specs::Put::card_held))]
pub fn put(answer: Result<Sides, Refused>, size: &mut [u16; 2], card: &mut u16) -> u16
    ensures { (result ≡ refusal answer) × (size.new ≡ size_held answer size.old) ×
        (card.new ≡ card_held answer card.old) }
{
    match answer {
        Ok(Sides { width, height }) => {
            *size = [width, height];
            0
        }
        Err(
            Refused {
                number: refusal,
                card: reached,
            },
        ) => {
            *card = reached;
            refusal
        }
    }
}
