// What is judged before tables are filled from a drawing.
// The tables stay parameters: a struct of lent tables was tried, and proves less (docs/DECISIONS.md, "The code's forms").
ghost use Rattle.std.specs.Prelude.{◌≡◌};
ghost use Rattle.paper.specs.Refusal.{seven};
ghost use Rattle.answer.specs.Answer.{told};
ghost use Rattle.table_lengths.specs.Given.{tables, works};
ghost use Rattle.table_lengths.specs.Lengths.{lengths};
ghost use Rattle.count_call.specs.Tally.{judged};

use answer::Refusal;
use check_call::check;

// Judges a size, the lengths of the tables to be filled, by name and by dart, and the drawing: refusals 1, 4 and 5. The tables
// stay as they are; the work tables are left at 1 and 4, else cleared.
pub(crate) fn judge(
    width: u16,
    height: u16,
    next1: &[u16],
    side1: &[u16],
    next3: &[u16],
    other3: &[u16],
    parent: &[u16],
    cells: &[u16],
    borders: &[u16],
    by_name: &[usize],
    by_dart: &[usize],
    work_a: &mut [u16],
    work_b: &mut [u16],
    work_c: &mut [u16],
    work_d: &mut [u16],
) -> Result<(), Refusal>
    ensures { told result
        (seven
        (tables next1.now side1.now next3.now other3.now parent.now
        cells.now borders.now))
        (works work_a.new work_b.new work_c.new work_d.new) ≡
        judged width height
        (tables next1.now side1.now next3.now other3.now parent.now
        cells.now borders.now)
        (lengths width height by_name.now by_dart.now)
        (works work_a.old work_b.old work_c.old work_d.old) }
{
    check_answer::refusal(width, height, by_name, by_dart)?;
    check::check(
        width, height, next1, side1, next3, other3, parent, cells, borders, work_a, work_b, work_c,
        work_d,
    )
}
