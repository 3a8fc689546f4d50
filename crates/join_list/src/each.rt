// The entries of a list, one after another.
// The tables stay parameters: a struct of lent tables was tried, and proves less (docs/DECISIONS.md, "The code's forms").
ghost use Rattle.std.specs.Prelude.{◌≡◌, true, ◌≢◌, ◌+◌, ◌*◌, length};
ghost use Rattle.point_darts.specs.Dart.{slots};
ghost use Rattle.paper.specs.Enclosure.{parents};
ghost use Rattle.paper.specs.Joining.{at, on};
ghost use Rattle.paper.specs.Refusal.{cleared};
ghost use Rattle.paper.specs.Order.{pairs, whole, joins, placed, stop};
ghost use Rattle.table_lengths.specs.Given.{tables, works};
ghost use Rattle.answer.specs.Answer.{number_of};
ghost use Rattle.join_rule.specs.Apply.{pair, found, Topped};
ghost use Rattle.join_list.specs.Answer.{list_number, list_values};
ghost use Rattle.join_list.specs.Each.{Open, Left, Ended};

use crate::pair;
use answer::Refusal;
use drawing::draw;
use join_groups::group;
use join_groups::group::End;
use join_rule::apply;
use sheet_size::Size;

// What joining by a list is refused for, and the place of the entry, counted from 0; 0 also where it is no entry that is refused.
#[derive(Clone, Copy, Debug, PartialEq, Eq)]
pub struct ListRefusal {
    pub refusal: Refusal,
    pub place: u16,
}

// The entries of a list are joined one after another, up to the first that is refused, but for the parents. What is left of the list
// grows shorter, since the promise is an equation about what is left.
fn join_each(
    size: Size,
    names: &[u16],
    next1: &mut [u16],
    side1: &mut [u16],
    next3: &mut [u16],
    other3: &mut [u16],
    cells: &mut [u16],
    borders: &mut [u16],
    back: &mut [u16],
    list: &mut [u16],
) -> End
    requires { (whole size.width (length names.now) ≡ true) ×
        Open size.width size.height
        (found size.width size.height next1.old side1.old next3.old other3.old cells.old borders.old)
        (pair back.old list.old) }
    ensures { (stop (number_of result.answer) result.place
        (found size.width size.height next1.new side1.new next3.new other3.new cells.new
        borders.new) ≡
        joins size.width size.height 0 (pairs names.now)
        (found size.width size.height next1.old side1.old next3.old other3.old
        cells.old borders.old)) ×
        Left size.width size.height result.place
        (found size.width size.height next1.old side1.old next3.old other3.old
        cells.old borders.old)
        back.old
        list.old
        (found size.width size.height next1.new side1.new next3.new other3.new cells.new
        borders.new)
        back.new
        list.new }
{
    let mut rest = names;
    let mut place: u16 = 0;
    while 1 < rest.len() {
        let answer = pair::join_pair(
            size, rest[0], rest[1], next1, side1, next3, other3, cells, borders, back, list,
        );
        if answer.is_err() {
            return End { answer, place };
        }
        rest = &rest[2..];
        place += 1;
    }
    End {
        answer: Ok(()),
        place,
    }
}

// What a list answers that ends so.
fn told(answer: Result<(), Refusal>, place: u16) -> Result<(), ListRefusal>
    ensures { (list_number result ≡ number_of answer) × (list_values result ≡ placed (number_of answer) place) }
{
    answer.map_err(|refusal| ListRefusal { refusal, place })
}

// The parents after so many joins, which have left the tops of the pieces at the front of back. Where there was none, they and the
// work tables are right as they are.
fn parents_after(
    joins: u16,
    size: Size,
    side1: &[u16],
    parent: &mut [u16],
    back: &mut [u16],
    list: &mut [u16],
)
    requires { (length side1.now ≡ slots size.width size.height) ×
        (length parent.old ≡ size.width * size.height + 1) × (length back.old ≡ slots size.width size.height) ×
        (joins ≡ 0 → pair back.old list.old ≡ cleared (pair back.old list.old)) ×
        (joins ≢ 0 → Topped size.width size.height side1.now back.old) }
    ensures { (joins ≡ 0 → parent.new ≡ parent.old) ×
        (joins ≢ 0 →
        parent.new ≡ parents size.width size.height (on side1.now) (at side1.now)) ×
        (pair back.new list.new ≡ cleared (pair back.old list.old)) }
{
    if joins == 0 {
        return;
    }
    apply::find_parents(size, side1, parent, back, list);
}

// Joins by a short list, in the seven tables of a drawing: entry by entry, by the removal rule. The parents are found once, after the
// last join. Back and list are work tables, all 0, and are left so.
fn join_short(
    size: Size,
    names: &[u16],
    next1: &mut [u16],
    side1: &mut [u16],
    next3: &mut [u16],
    other3: &mut [u16],
    parent: &mut [u16],
    cells: &mut [u16],
    borders: &mut [u16],
    back: &mut [u16],
    list: &mut [u16],
) -> Result<(), ListRefusal>
    requires { (whole size.width (length names.now) ≡ true) ×
        Open size.width size.height (tables next1.old side1.old next3.old other3.old parent.old cells.old borders.old)
        (pair back.old list.old) ×
        (pair back.old list.old ≡ cleared (pair back.old list.old)) }
    ensures { Ended result
        (joins size.width size.height 0 (pairs names.now)
        (tables next1.old side1.old next3.old other3.old parent.old
        cells.old borders.old))
        (tables next1.new side1.new next3.new other3.new parent.new
        cells.new borders.new) ×
        (pair back.new list.new ≡ cleared (pair back.old list.old)) }
{
    let end = join_each(
        size, names, next1, side1, next3, other3, cells, borders, back, list,
    );
    parents_after(end.place, size, side1, parent, back, list);
    let answer = end.answer;
    told(answer, end.place)
}

// A list of so many names or more is joined as groups and drawn at its end, which costs less than so many joins by the rule.
const LONG: usize = 20;

// Joins by a list of names, two by two, in the seven tables of a drawing: one entry after another, up to the first that is refused.
// The work tables are all 0, and are left so.
pub fn join_all(
    size: Size,
    names: &[u16],
    next1: &mut [u16],
    side1: &mut [u16],
    next3: &mut [u16],
    other3: &mut [u16],
    parent: &mut [u16],
    cells: &mut [u16],
    borders: &mut [u16],
    work_a: &mut [u16],
    work_b: &mut [u16],
    work_c: &mut [u16],
    work_d: &mut [u16],
) -> Result<(), ListRefusal>
    requires { (whole size.width (length names.now) ≡ true) ×
        Open size.width size.height (tables next1.old side1.old next3.old other3.old parent.old cells.old borders.old)
        (works work_a.old work_b.old work_c.old work_d.old) ×
        (works work_a.old work_b.old work_c.old work_d.old ≡
        cleared (works work_a.old work_b.old work_c.old work_d.old)) }
    ensures { Ended result
        (joins size.width size.height 0 (pairs names.now)
        (tables next1.old side1.old next3.old other3.old parent.old
        cells.old borders.old))
        (tables next1.new side1.new next3.new other3.new parent.new
        cells.new borders.new) ×
        (works work_a.new work_b.new work_c.new work_d.new ≡
        cleared (works work_a.old work_b.old work_c.old work_d.old)) }
{
    if names.len() < LONG {
        return join_short(
            size, names, next1, side1, next3, other3, parent, cells, borders, work_a, work_b,
        );
    }
    let n = (size.width * size.height) as usize;
    let end = group::regroup(
        size,
        names,
        side1,
        cells,
        &mut work_a[..n],
        work_b,
        work_c,
        work_d,
    );
    draw::draw_names(
        size, next1, side1, next3, other3, parent, cells, borders, work_a, work_b, work_c, work_d,
    );
    let answer = end.answer;
    told(answer, end.place)
}
