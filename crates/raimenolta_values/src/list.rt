ghost use Rattle.std.specs.Prelude.{◌≡◌};
ghost use Rattle.raimenolta_values.specs.Put.{list_numbers, list_number, place_held};

use join_list::each::ListRefusal;

// The number of a refusal, and the place of the entry.
#[derive(Clone, Copy, Debug, PartialEq, Eq)]
pub struct Refused {
    pub number: u16,
    pub place: u16,
}

// What joining by a list answers, in numbers.
#[tactic(auto, unfolding(crate::specs::Put::list_numbers))]
pub fn numbers(answer: Result<(), ListRefusal>) -> Result<(), Refused>
    ensures { result ≡ list_numbers answer }
{
    match answer {
        Ok(()) => Ok(()),
        Err(ListRefusal { refusal, place }) => Err(Refused {
            number: refusal.into(),
            place,
        }),
    }
}

// Puts the place of the entry that a list was refused at into a lent slot, which is left as it was where the list is done. Answers
// the number of the refusal, 0 for done.
#[tactic(auto, unfolding(crate::specs::Put::place_held, crate::specs::Put::list_number))]
pub fn put(answer: Result<(), Refused>, slot: &mut u16) -> u16
    ensures { (result ≡ list_number answer) × (slot.new ≡ place_held answer slot.old) }
{
    match answer {
        Ok(()) => 0,
        Err(Refused { number, place }) => {
            *slot = place;
            number
        }
    }
}
