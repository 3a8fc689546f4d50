// What is judged after a check's refusals 1 to 4 and before its 5.
ghost use Rattle.std.specs.Prelude.{◌≡◌, ◌&&◌, leb};
ghost use Rattle.paper.specs.Order.{whole};
ghost use Rattle.answer.specs.Answer.{number_of};
ghost use Rattle.join_answer.specs.Judge.{judged, judged_or};

use answer::Refusal;

// The greatest width of the form that has a card a row, and the most pairs of a list for such sheets and for wide ones.
const CARD: u16 = 72;

const PAIRS: usize = 5183;

const WIDE_PAIRS: usize = 7919;

// Whether a list of so many names may be lent: it is one of pairs, and not too long for a sheet of this width.
#[tactic(auto, unfolding(paper::specs::Order::whole))]
fn is_whole(width: u16, length: usize) -> bool
    ensures { result ≡ whole width length }
{
    if length % 2 != 0 {
        return false;
    }
    if width <= CARD {
        return length <= 2 * PAIRS;
    }
    length <= 2 * WIDE_PAIRS
}

// Whether a refusal is one of the first: its number is 1 to 4. It is asked of the number, since that is how the paper says it.
fn is_early(number: u16) -> bool
    ensures { result ≡ leb 1 number && leb number 4 }
{
    if number < 1 {
        return false;
    }
    number <= 4
}

// What is answered after a check of the drawing where something else is judged too: whether it is right, and what is refused where it
// is not. That comes after 4 and before 5.
#[tactic(auto, unfolding(crate::specs::Judge::judged_or))]
pub fn judged_or(
    checked: Result<(), Refusal>,
    right: bool,
    refusal: Result<(), Refusal>,
) -> Result<(), Refusal>
    ensures { number_of result ≡ judged_or (number_of checked) right (number_of refusal) }
{
    if is_early(answer::number(checked)) {
        return checked;
    }
    if !right {
        return refusal;
    }
    checked
}

// What is answered to a list of so many names after a check of the drawing: refusal 12 comes after 4 and before 5.
#[tactic(auto, unfolding(answer::specs::Answer::number_of, crate::specs::Judge::judged, crate::specs::Judge::judged_or))]
pub fn judged(checked: Result<(), Refusal>, width: u16, length: usize) -> Result<(), Refusal>
    ensures { number_of result ≡ judged (number_of checked) (whole width length) }
{
    judged_or(checked, is_whole(width, length), Err(Refusal::List))
}
