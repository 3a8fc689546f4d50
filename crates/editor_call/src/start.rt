// The tables stay parameters: a struct of lent tables was tried, and proves less (docs/DECISIONS.md, "The code's forms").
ghost use Rattle.std.specs.Prelude.{◌≡◌, [], ◌∷◌, ◌++◌};
ghost use Rattle.laws.specs.First.{first_failed};
ghost use Rattle.paper.specs.Refusal.{seven, draw_tests};
ghost use Rattle.paper.specs.Editor.{owned, started};
ghost use Rattle.answer.specs.Answer.{number_of, told};
ghost use Rattle.table_lengths.specs.Given.{tables, works};
ghost use Rattle.table_lengths.specs.Lengths.{lengths};

use answer::Refusal;
use drawing::draw;
use editor_answer::owners;
use table_entries::entry;

// What starting answers to a size, the length of the sheet, the owners, and the lengths of the tables by name and by dart.
fn refusal(
    width: u16,
    height: u16,
    sheet: usize,
    owners: &[u16],
    by_name: &[usize],
    by_dart: &[usize],
) -> Result<(), Refusal>
    ensures { number_of result ≡
        first_failed
        (draw_tests width height sheet (lengths width height by_name.now by_dart.now) ++
        (owned owners.now, 11) ∷ []) }
{
    draw::refusal(width, height, sheet, by_name, by_dart)?;
    if !owners::are_owned(owners) {
        return Err(Refusal::Editor);
    }
    Ok(())
}

// Refusals up to this number leave the work tables; the paper says it of the numbers.
const EARLY: u16 = 4;

// Starts a drawing that two editors will share: draws a sheet, once every name from 1 to the number of cells, used or not, has an owner,
// 1 or 2. Refusals 1, 3 and 4, for the owners too, then 11 where an owner is neither. A refusal leaves the seven tables as they are; the
// work tables are left at 1, 3 and 4, else cleared.
pub fn start(
    width: u16,
    height: u16,
    sheet: &[u16],
    owners: &[u16],
    next1: &mut [u16],
    side1: &mut [u16],
    next3: &mut [u16],
    other3: &mut [u16],
    parent: &mut [u16],
    cells: &mut [u16],
    borders: &mut [u16],
    work_a: &mut [u16],
    work_b: &mut [u16],
    work_c: &mut [u16],
    work_d: &mut [u16],
) -> Result<(), Refusal>
    ensures { told result
        (seven
        (tables next1.new side1.new next3.new other3.new parent.new
        cells.new borders.new))
        (works work_a.new work_b.new work_c.new work_d.new) ≡
        started width height sheet.now owners.now
        (tables next1.old side1.old next3.old other3.old parent.old
        cells.old borders.old)
        (works work_a.old work_b.old work_c.old work_d.old) }
{
    let answer = refusal(
        width,
        height,
        sheet.len(),
        owners,
        &[owners.len(), parent.len(), cells.len(), borders.len()],
        &[
            next1.len(),
            side1.len(),
            next3.len(),
            other3.len(),
            work_a.len(),
            work_b.len(),
            work_c.len(),
            work_d.len(),
        ],
    );
    if answer.is_ok() {
        return draw::draw(
            width, height, sheet, next1, side1, next3, other3, parent, cells, borders, work_a,
            work_b, work_c, work_d,
        );
    }
    if EARLY < answer::number(answer) {
        entry::clear_four(work_a, work_b, work_c, work_d);
    }
    answer
}
