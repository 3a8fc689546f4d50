// The tables stay parameters: a struct of lent tables was tried, and proves less (docs/DECISIONS.md, "The code's forms").
ghost use Rattle.std.specs.Prelude.{◌≡◌};
ghost use Rattle.paper.specs.Refusal.{seven};
ghost use Rattle.paper.specs.Order.{merged_list};
ghost use Rattle.table_lengths.specs.Given.{tables, works};
ghost use Rattle.join_list.specs.Answer.{listed};

use check_call::check;
use join_answer::judge;
use join_list::each;
use join_list::each::ListRefusal;
use sheet_size::Size;

// Joins by a list of names, two by two, in the seven tables of a drawing, which is checked once: one entry after another, up to the
// first that is refused. Refusals 1, 4, then 12 where the list is of odd length or has too many pairs, 5, then those of the entry,
// 6 to 9, with its place; the others have the place 0. The joins before a refusal stay; 1, 4, 12 and 5 leave the seven tables. The
// work tables are left at 1 and 4, else cleared.
pub fn join_list(
    width: u16,
    height: u16,
    next1: &mut [u16],
    side1: &mut [u16],
    next3: &mut [u16],
    other3: &mut [u16],
    parent: &mut [u16],
    cells: &mut [u16],
    borders: &mut [u16],
    names: &[u16],
    work_a: &mut [u16],
    work_b: &mut [u16],
    work_c: &mut [u16],
    work_d: &mut [u16],
) -> Result<(), ListRefusal>
    ensures { listed result
        (seven
        (tables next1.new side1.new next3.new other3.new parent.new
        cells.new borders.new))
        (works work_a.new work_b.new work_c.new work_d.new) ≡
        merged_list width height
        (tables next1.old side1.old next3.old other3.old parent.old
        cells.old borders.old)
        names.now
        (works work_a.old work_b.old work_c.old work_d.old) }
{
    let checked = check::check(
        width, height, next1, side1, next3, other3, parent, cells, borders, work_a, work_b, work_c,
        work_d,
    );
    judge::judged(checked, width, names.len()).map_err(|refusal| ListRefusal {
        refusal,
        place: 0,
    })?;
    each::join_all(
        Size { width, height },
        names,
        next1,
        side1,
        next3,
        other3,
        parent,
        cells,
        borders,
        work_a,
        work_b,
        work_c,
        work_d,
    )
}
