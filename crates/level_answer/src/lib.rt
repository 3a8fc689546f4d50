// What the level drawing answers to a size, a level and lengths.
#![tactic(auto)]

ghost use Rattle.std.specs.Prelude.{IfOk, ◌≡◌, []};
ghost use Rattle.laws.specs.First.{first_failed};
ghost use Rattle.paper.specs.Refusal.{level_tests};
ghost use Rattle.answer.specs.Answer.{number_of};
ghost use Rattle.table_lengths.specs.Lengths.{lengths};

use answer::Refusal;
use sheet_size::Size;

// The highest level.
const HIGHEST: u16 = 3;

// What the level drawing answers to a size, a level, the length of the sheet and the lengths of the tables by dart.
#[tactic(auto, unfolding(answer::specs::Answer::number_of, paper::specs::Refusal::level_tests, laws::specs::First::first_failed))]
pub fn refusal(
    width: u16,
    height: u16,
    level: u16,
    sheet: usize,
    by_dart: &[usize],
) -> Result<Size, Refusal>
    ensures number { number_of result ≡
        first_failed (level_tests width height level sheet (lengths width height [] by_dart.now)) }
    ensures size { IfOk result (λ size. (size.width ≡ width) × (size.height ≡ height)) }
{
    let Some(size) = Size::new(width, height) else {
        return Err(Refusal::Size);
    };
    if HIGHEST < level {
        return Err(Refusal::Level);
    }
    if sheet != (width * height) as usize {
        return Err(Refusal::Sheet);
    }
    if !table_lengths::stated(size, &[], by_dart) {
        return Err(Refusal::Tables);
    }
    Ok(size)
}
