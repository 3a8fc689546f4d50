// What a check of a drawing answers to a size and lengths, and to whether the tables are a drawing.
#![tactic(auto)]

ghost use Rattle.std.specs.Prelude.{IfOk, ◌≡◌, [], ◌∷◌};
ghost use Rattle.laws.specs.First.{first_failed};
ghost use Rattle.paper.specs.Refusal.{size_tests};
ghost use Rattle.answer.specs.Answer.{number_of};
ghost use Rattle.table_lengths.specs.Lengths.{lengths};

use answer::Refusal;
use sheet_size::Size;

// What a check of a drawing answers to a size, and the lengths of the tables by name and by dart.
#[tactic(auto, unfolding(answer::specs::Answer::number_of, paper::specs::Refusal::size_tests, laws::specs::First::first_failed))]
pub fn refusal(
    width: u16,
    height: u16,
    by_name: &[usize],
    by_dart: &[usize],
) -> Result<Size, Refusal>
    ensures number { number_of result ≡
        first_failed (size_tests width height (lengths width height by_name.now by_dart.now)) }
    ensures size { IfOk result (λ size. (size.width ≡ width) × (size.height ≡ height)) }
{
    let Some(size) = Size::new(width, height) else {
        return Err(Refusal::Size);
    };
    if !table_lengths::stated(size, by_name, by_dart) {
        return Err(Refusal::Tables);
    }
    Ok(size)
}

// What a check of a drawing answers where size and lengths are right, by whether the tables are a drawing.
#[tactic(auto, unfolding(answer::specs::Answer::number_of, laws::specs::First::first_failed))]
pub fn found(drawing: bool) -> Result<(), Refusal>
    ensures { number_of result ≡ first_failed ((drawing, 5) ∷ []) }
{
    if !drawing {
        return Err(Refusal::Drawing);
    }
    Ok(())
}
