// What a call answers: done, or what is refused.
#![tactic(auto)]

ghost use Rattle.std.specs.Prelude.{◌≡◌};
ghost use Rattle.answer.specs.Answer.{refusal_number, number_of};

// What is refused.
#[derive(Clone, Copy, Debug, PartialEq, Eq)]
pub enum Refusal {
    // The width or the height is not 1 to the greatest.
    Size,
    // The level is above 3.
    Level,
    // The sheet's length is not the width times the height.
    Sheet,
    // The length of a lent table or work table is not the stated one.
    Tables,
    // The tables are the drawing of no sheet of this size.
    Drawing,
    // One of two names is the outside's.
    Outside,
    // Two names are equal.
    Equal,
    // No region has the name.
    Name,
    // Two regions share no line.
    Apart,
    // No region of the caller's has the name.
    Owner,
    // An editor, or the owner of a name, is neither 1 nor 2.
    Editor,
    // A list of names is not one of pairs, or it has too many.
    List,
}

// The number of a refusal.
impl From<Refusal> for u16 {
    ghost from_gives = { λ refusal number. number ≡ refusal_number refusal };

    fn from(refusal: Refusal) -> u16 {
        match refusal {
            Refusal::Size => 1,
            Refusal::Level => 2,
            Refusal::Sheet => 3,
            Refusal::Tables => 4,
            Refusal::Drawing => 5,
            Refusal::Outside => 6,
            Refusal::Equal => 7,
            Refusal::Name => 8,
            Refusal::Apart => 9,
            Refusal::Owner => 10,
            Refusal::Editor => 11,
            Refusal::List => 12,
        }
    }
}

// The number that an answer tells: 0 where nothing is refused, else that of the refusal.
#[tactic(auto, unfolding(crate::specs::Answer::number_of))]
pub fn number<T: Copy>(answer: Result<T, Refusal>) -> u16
    ensures { result ≡ number_of answer }
{
    match answer {
        Ok(_) => 0,
        Err(refusal) => refusal.into(),
    }
}
