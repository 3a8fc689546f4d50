// The tables stay parameters: a struct of lent tables was tried, and proves less (docs/DECISIONS.md, "The code's forms").
ghost use Rattle.std.specs.Prelude.{◌≡◌, [], ◌∷◌};
ghost use Rattle.paper.specs.Refusal.{levelled};
ghost use Rattle.answer.specs.Answer.{told};
ghost use Rattle.table_lengths.specs.Given.{works};

use crate::fill;
use answer::Refusal;

// Draws a level of a sheet: next, other and side, the mark at each slot without a dart of the level, and the work tables
// all 0. Refusals: 1 where the width or the height is not 1 to the greatest, 2 where the level is above 3, 3 where the
// sheet's length is not the width times the height, 4 where a table's length is not the number of slots. A refusal leaves
// every table as it was.
pub fn draw(
    width: u16,
    height: u16,
    level: u16,
    sheet: &[u16],
    next: &mut [u16],
    other: &mut [u16],
    side: &mut [u16],
    work_a: &mut [u16],
    work_b: &mut [u16],
    work_c: &mut [u16],
    work_d: &mut [u16],
) -> Result<(), Refusal>
    ensures { told result (next.new ∷ other.new ∷ side.new ∷ [])
        (works work_a.new work_b.new work_c.new work_d.new) ≡
        levelled width height level sheet.now
        (next.old ∷ other.old ∷ side.old ∷ [])
        (works work_a.old work_b.old work_c.old work_d.old) }
{
    let size = level_answer::refusal(
        width,
        height,
        level,
        sheet.len(),
        &[
            next.len(),
            other.len(),
            side.len(),
            work_a.len(),
            work_b.len(),
            work_c.len(),
            work_d.len(),
        ],
    )?;
    fill::fill(
        size, level, sheet, next, other, side, work_a, work_b, work_c, work_d,
    );
    Ok(())
}
