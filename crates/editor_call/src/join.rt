// The tables stay parameters: a struct of lent tables was tried, and proves less (docs/DECISIONS.md, "The code's forms").
ghost use Rattle.std.specs.Prelude.{◌≡◌};
ghost use Rattle.paper.specs.Refusal.{seven};
ghost use Rattle.paper.specs.Editor.{call, edited};
ghost use Rattle.answer.specs.Answer.{number_of, told};
ghost use Rattle.table_lengths.specs.Given.{tables, works};
ghost use Rattle.join_call.specs.Faithful.{Faithful};

use answer::Refusal;
use check_call::check;
use editor_answer::{asked, owners};
use join_rule::apply;
use sheet_size::Size;

// Joins the regions a and b of a drawing as one of its editors, in its seven tables, which come to equal the drawing afresh. The owners
// are read, never written. Refusals 1, 4, for the owners too, 11 where the editor, or an owner, is neither 1 nor 2, 5, then 6 where a
// name is 0, 7 where the names are equal, 10 where no region of the editor's has one of them, 9 where the two share no line. A refusal
// leaves the seven tables as they are; the work tables are left at 1 and 4, else cleared.
pub fn join(
    width: u16,
    height: u16,
    next1: &mut [u16],
    side1: &mut [u16],
    next3: &mut [u16],
    other3: &mut [u16],
    parent: &mut [u16],
    cells: &mut [u16],
    borders: &mut [u16],
    owners: &[u16],
    editor: u16,
    a: u16,
    b: u16,
    work_a: &mut [u16],
    work_b: &mut [u16],
    work_c: &mut [u16],
    work_d: &mut [u16],
) -> Result<(), Refusal>
    ensures { (told result
        (seven
        (tables next1.new side1.new next3.new other3.new parent.new
        cells.new borders.new))
        (works work_a.new work_b.new work_c.new work_d.new) ≡
        edited width height owners.now
        (tables next1.old side1.old next3.old other3.old parent.old
        cells.old borders.old)
        (call editor a b
        (works work_a.old work_b.old work_c.old work_d.old))) ×
        (number_of result ≡ 0 →
        Faithful width height
        (tables next1.old side1.old next3.old other3.old parent.old
        cells.old borders.old)
        (tables next1.new side1.new next3.new other3.new parent.new
        cells.new borders.new)
        a
        b) }
{
    if !owners::are_stated(width, height, owners.len()) {
        return Err(Refusal::Tables);
    }
    let checked = check::check(
        width, height, next1, side1, next3, other3, parent, cells, borders, work_a, work_b, work_c,
        work_d,
    );
    asked::asked(checked, width, height, owners, editor, side1, parent, a, b)?;
    apply::apply(
        Size { width, height },
        a,
        b,
        next1,
        side1,
        next3,
        other3,
        parent,
        cells,
        borders,
        work_a,
        work_b,
    );
    Ok(())
}
