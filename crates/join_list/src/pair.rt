// The tables stay parameters: a struct of lent tables was tried, and proves less (docs/DECISIONS.md, "The code's forms").
ghost use Rattle.std.specs.Prelude.{◌≡◌, ◌≢◌};
ghost use Rattle.laws.specs.First.{first_failed};
ghost use Rattle.paper.specs.Joining.{joined};
ghost use Rattle.paper.specs.Refusal.{pair_tests};
ghost use Rattle.answer.specs.Answer.{number_of};
ghost use Rattle.join_rule.specs.Apply.{pair, found, Topped};
ghost use Rattle.join_list.specs.Each.{Open};

use answer::Refusal;
use join_answer::asked;
use join_rule::apply;
use sheet_size::Size;

// Joins the regions a and b in a drawing whose parents are left for later: nothing reads them, since its cells tell as well which
// names are in use. Refusals 6 to 9, which leave everything. The tops of the pieces are left at the front of back; list is work.
pub fn join_pair(
    size: Size,
    a: u16,
    b: u16,
    next1: &mut [u16],
    side1: &mut [u16],
    next3: &mut [u16],
    other3: &mut [u16],
    cells: &mut [u16],
    borders: &mut [u16],
    back: &mut [u16],
    list: &mut [u16],
) -> Result<(), Refusal>
    requires { Open size.width size.height
        (found size.width size.height next1.old side1.old next3.old other3.old cells.old borders.old)
        (pair back.old list.old) }
    ensures { (number_of result ≡
        first_failed
        (pair_tests size.width size.height side1.old
        (found size.width size.height next1.old side1.old next3.old other3.old
        cells.old borders.old).parent
        a
        b)) ×
        (number_of result ≡ 0 →
        (found size.width size.height next1.new side1.new next3.new other3.new
        cells.new borders.new ≡
        joined size.width size.height
        (found size.width size.height next1.old side1.old next3.old other3.old
        cells.old borders.old)
        a
        b) ×
        Topped size.width size.height side1.new back.new) ×
        (number_of result ≢ 0 →
        (found size.width size.height next1.new side1.new next3.new other3.new
        cells.new borders.new ≡
        found size.width size.height next1.old side1.old next3.old other3.old
        cells.old borders.old) ×
        (back.new ≡ back.old) × (list.new ≡ list.old)) }
{
    asked::asked(Ok(()), size.width, size.height, side1, cells, a, b)?;
    apply::unite(
        size, a, b, next1, side1, next3, other3, cells, borders, back, list,
    );
    Ok(())
}
