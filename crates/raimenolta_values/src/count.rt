ghost use Rattle.std.specs.Prelude.{◌≡◌};
ghost use Rattle.raimenolta_values.specs.Put.{count_numbers, count_number, count_held};

use answer::Refusal;

// What a count answers, in numbers.
#[tactic(auto, unfolding(crate::specs::Put::count_numbers))]
pub fn numbers(count: Result<u16, Refusal>) -> Result<u16, u16>
    ensures { result ≡ count_numbers count }
{
    match count {
        Ok(value) => Ok(value),
        Err(refusal) => Err(refusal.into()),
    }
}

// Puts a count into a lent slot, which a refusal leaves as it was. Answers the number of the refusal, 0 for done.
#[tactic(auto, unfolding(crate::specs::Put::count_number, crate::specs::Put::count_held))]
pub fn put(count: Result<u16, u16>, slot: &mut u16) -> u16
    ensures { (result ≡ count_number count) × (slot.new ≡ count_held count slot.old) }
{
    match count {
        Ok(value) => {
            *slot = value;
            0
        }
        Err(number) => number,
    }
}
