// The tables stay parameters: a struct of lent tables was tried, and proves less (docs/DECISIONS.md, "The code's forms").
ghost use Rattle.std.specs.Prelude.{◌≡◌, [], ◌∷◌, ◌++◌};
ghost use Rattle.paper.specs.Refusal.{seven, deepened, holed};
ghost use Rattle.answer.specs.Answer.{told};
ghost use Rattle.table_lengths.specs.Given.{tables, works};
ghost use Rattle.count_call.specs.Tally.{tallied};
ghost use Rattle.count_answer.specs.Count.{counted};

use crate::given;
use answer::Refusal;
use check_call::check;
use count_holes::holes;
use region_depths::census;
use sheet_size::Size;

// The depth of a region, or of the outside for the name 0: refusals 1, 4, 5 and 8. The tables stay as they are; the work
// tables are left at 1 and 4, else cleared.
pub fn depth(
    width: u16,
    height: u16,
    next1: &[u16],
    side1: &[u16],
    next3: &[u16],
    other3: &[u16],
    parent: &[u16],
    cells: &[u16],
    borders: &[u16],
    name: u16,
    work_a: &mut [u16],
    work_b: &mut [u16],
    work_c: &mut [u16],
    work_d: &mut [u16],
) -> Result<u16, Refusal>
    ensures { counted result
        (seven
        (tables next1.now side1.now next3.now other3.now parent.now
        cells.now borders.now))
        (works work_a.new work_b.new work_c.new work_d.new) ≡
        deepened width height
        (tables next1.now side1.now next3.now other3.now parent.now
        cells.now borders.now)
        name
        (works work_a.old work_b.old work_c.old work_d.old) }
{
    let answer = check::check(
        width, height, next1, side1, next3, other3, parent, cells, borders, work_a, work_b, work_c,
        work_d,
    );
    count_answer::depth_after(answer, parent, name)
}

// The hole count of a region, or of the outside for the name 0: how many different pieces are the outer pieces of the regions
// whose parent it is. Refusals 1, 4, 5 and 8. The tables stay as they are; the work tables are left at 1 and 4, else cleared.
pub fn holes(
    width: u16,
    height: u16,
    next1: &[u16],
    side1: &[u16],
    next3: &[u16],
    other3: &[u16],
    parent: &[u16],
    cells: &[u16],
    borders: &[u16],
    name: u16,
    work_a: &mut [u16],
    work_b: &mut [u16],
    work_c: &mut [u16],
    work_d: &mut [u16],
) -> Result<u16, Refusal>
    ensures { counted result
        (seven
        (tables next1.now side1.now next3.now other3.now parent.now
        cells.now borders.now))
        (works work_a.new work_b.new work_c.new work_d.new) ≡
        holed width height
        (tables next1.now side1.now next3.now other3.now parent.now
        cells.now borders.now)
        name
        (works work_a.old work_b.old work_c.old work_d.old) }
{
    let answer = check::check(
        width, height, next1, side1, next3, other3, parent, cells, borders, work_a, work_b, work_c,
        work_d,
    );
    count_answer::holes_after(answer, width, height, side1, parent, name, work_a)
}

// Depth and hole count of every name at once, of the outside and of each name in use; the mark for any other name. The
// two tables are by name, of the length of the parents. Refusals 1, 4 and 5, which leave them; the work tables are left
// at 1 and 4, else cleared.
pub fn counts(
    width: u16,
    height: u16,
    next1: &[u16],
    side1: &[u16],
    next3: &[u16],
    other3: &[u16],
    parent: &[u16],
    cells: &[u16],
    borders: &[u16],
    depths: &mut [u16],
    tally: &mut [u16],
    work_a: &mut [u16],
    work_b: &mut [u16],
    work_c: &mut [u16],
    work_d: &mut [u16],
) -> Result<(), Refusal>
    ensures { told result
        (seven
        (tables next1.now side1.now next3.now other3.now parent.now
        cells.now borders.now) ++
        depths.new ∷ tally.new ∷ [])
        (works work_a.new work_b.new work_c.new work_d.new) ≡
        tallied width height
        (tables next1.now side1.now next3.now other3.now parent.now
        cells.now borders.now)
        depths.old
        tally.old
        (works work_a.old work_b.old work_c.old work_d.old) }
{
    given::judge(
        width,
        height,
        next1,
        side1,
        next3,
        other3,
        parent,
        cells,
        borders,
        &[depths.len(), tally.len()],
        &[],
        work_a,
        work_b,
        work_c,
        work_d,
    )?;
    census::all_depths(parent, depths);
    holes::all_holes(Size { width, height }, side1, parent, tally, work_a);
    Ok(())
}
