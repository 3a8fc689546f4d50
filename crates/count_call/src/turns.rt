// The tables stay parameters: a struct of lent tables was tried, and proves less (docs/DECISIONS.md, "The code's forms").
ghost use Rattle.std.specs.Prelude.{◌≡◌, [], ◌∷◌, ◌++◌};
ghost use Rattle.paper.specs.Refusal.{seven};
ghost use Rattle.answer.specs.Answer.{told};
ghost use Rattle.table_lengths.specs.Given.{tables, works};
ghost use Rattle.count_call.specs.Tally.{traced};

use crate::given;
use answer::Refusal;
use count_turns::turns;
use sheet_size::Size;

// The right turns and the left turns of every dart of level 3, taken strictly inside its run to the next kept point; the mark at
// every other slot. The two tables are by dart, as long as those of links. Refusals 1, 4 and 5, which leave them; the work tables
// are left at 1 and 4, else cleared.
pub fn turns(
    width: u16,
    height: u16,
    next1: &[u16],
    side1: &[u16],
    next3: &[u16],
    other3: &[u16],
    parent: &[u16],
    cells: &[u16],
    borders: &[u16],
    right: &mut [u16],
    left: &mut [u16],
    work_a: &mut [u16],
    work_b: &mut [u16],
    work_c: &mut [u16],
    work_d: &mut [u16],
) -> Result<(), Refusal>
    ensures { told result
        (seven
        (tables next1.now side1.now next3.now other3.now parent.now
        cells.now borders.now) ++
        right.new ∷ left.new ∷ [])
        (works work_a.new work_b.new work_c.new work_d.new) ≡
        traced width height
        (tables next1.now side1.now next3.now other3.now parent.now
        cells.now borders.now)
        right.old
        left.old
        (works work_a.old work_b.old work_c.old work_d.old) }
{
    given::judge(
        width,
        height,
        next1,
        side1,
        next3,
        other3,
        parent,
        cells,
        borders,
        &[],
        &[right.len(), left.len()],
        work_a,
        work_b,
        work_c,
        work_d,
    )?;
    turns::all_turns(Size { width, height }, next1, next3, other3, right, left);
    Ok(())
}
