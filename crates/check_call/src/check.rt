// The check whether seven tables are the drawing of some sheet.
// The tables stay parameters: a struct of lent tables was tried, and proves less (docs/DECISIONS.md, "The code's forms").
ghost use Rattle.std.specs.Prelude.{◌≡◌, true};
ghost use Rattle.paper.specs.Drawing.{is_drawing};
ghost use Rattle.paper.specs.Refusal.{stated, seven};
ghost use Rattle.answer.specs.Answer.{told};
ghost use Rattle.table_lengths.specs.Given.{tables, works};
ghost use Rattle.check_answer.specs.Check.{checked};

use crate::agree;
use answer::Refusal;
use sheet_size::Size;
use table_entries::entry;

// Whether the seven tables are the drawing of some sheet of this size.
fn is_drawing(
    size: Size,
    next1: &[u16],
    side1: &[u16],
    next3: &[u16],
    other3: &[u16],
    parent: &[u16],
    cells: &[u16],
    borders: &[u16],
    work_a: &mut [u16],
    work_b: &mut [u16],
    work_c: &mut [u16],
    work_d: &mut [u16],
) -> bool
    requires { stated size.width size.height (tables next1.now side1.now next3.now other3.now parent.now cells.now borders.now)
        (works work_a.old work_b.old work_c.old work_d.old) ≡
        true }
    ensures { result ≡
        is_drawing size.width size.height
        (tables next1.now side1.now next3.now other3.now parent.now
        cells.now borders.now) }
{
    agree::recover_names(size, side1, work_a, work_b, work_c);
    if !agree::totals_agree(size, cells, borders, work_a, work_b, work_c, work_d) {
        return false;
    }
    if !agree::lines_agree(size, next1, side1, work_a, work_b, work_c, work_d) {
        return false;
    }
    agree::curves_agree(
        size, next1, side1, next3, other3, parent, work_a, work_b, work_c, work_d,
    )
}

// Checks whether the seven tables are the drawing of some sheet of this size: refusals 1, 4 and 5. The tables stay as
// they are; the work tables are left at 1 and 4, else cleared.
pub fn check(
    width: u16,
    height: u16,
    next1: &[u16],
    side1: &[u16],
    next3: &[u16],
    other3: &[u16],
    parent: &[u16],
    cells: &[u16],
    borders: &[u16],
    work_a: &mut [u16],
    work_b: &mut [u16],
    work_c: &mut [u16],
    work_d: &mut [u16],
) -> Result<(), Refusal>
    ensures { told result
        (seven
        (tables next1.now side1.now next3.now other3.now parent.now
        cells.now borders.now))
        (works work_a.new work_b.new work_c.new work_d.new) ≡
        checked width height
        (tables next1.now side1.now next3.now other3.now parent.now
        cells.now borders.now)
        (works work_a.old work_b.old work_c.old work_d.old) }
{
    let size = check_answer::refusal(
        width,
        height,
        &[parent.len(), cells.len(), borders.len()],
        &[
            next1.len(),
            side1.len(),
            next3.len(),
            other3.len(),
            work_a.len(),
            work_b.len(),
            work_c.len(),
            work_d.len(),
        ],
    )?;
    let drawing = is_drawing(
        size, next1, side1, next3, other3, parent, cells, borders, work_a, work_b, work_c, work_d,
    );
    entry::clear_four(work_a, work_b, work_c, work_d);
    check_answer::found(drawing)
}
