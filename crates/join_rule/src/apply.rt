// The tables stay parameters: a struct of lent tables was tried, and proves less (docs/DECISIONS.md, "The code's forms").
ghost use Rattle.std.specs.Prelude.{◌≡◌, cond, ◌+◌, ◌*◌, length};
ghost use Rattle.laws.specs.Table.{table};
ghost use Rattle.laws.specs.Least.{lower};
ghost use Rattle.point_darts.specs.Dart.{mark, points, slots};
ghost use Rattle.paper.specs.Level.{tops};
ghost use Rattle.paper.specs.Enclosure.{parents};
ghost use Rattle.paper.specs.Joining.{at, on, smoothed, closed, joined};
ghost use Rattle.paper.specs.Refusal.{cleared};
ghost use Rattle.table_lengths.specs.Given.{tables};
ghost use Rattle.join_darts.specs.Links.{links};
ghost use Rattle.join_rule.specs.Apply.{pair, found, Topped, Visits, Ready};

use join_close::close;
use join_darts::list;
use join_lower::side;
use join_shared::shared;
use join_smooth::smooth;
use join_totals::total;
use level_pieces::points;
use point_darts::dart;
use point_rules::turn;
use region_parents::parent;
use sheet_size::Size;
use table_entries::entry;

// Steps 3 and 4 at level 3: points go, and closed curves move to their anchors. Before has entries for the lines before the
// join, lines for those that remain; the tops of their pieces are left in top. The list leads to every point where there is
// something to do.
fn settle_curves(
    size: Size,
    first: u16,
    list: &[u16],
    before: &[u16],
    lines: &[u16],
    next: &mut [u16],
    other: &mut [u16],
    top: &mut [u16],
)
    requires { (length before.now ≡ slots size.width size.height) ×
        (length lines.now ≡ slots size.width size.height) × (length next.old ≡ slots size.width size.height) ×
        (length top.old ≡ points size.width size.height) × (length list.now ≡ slots size.width size.height) ×
        Visits size.width size.height (on lines.now) (links next.old other.old) first list.now }
    ensures { (links next.new other.new ≡
        closed size.width size.height (on lines.now)
        (smoothed size.width size.height (links next.old other.old))) ×
        (top.new ≡ tops size.width size.height (on lines.now)) }
{
    points::top_points(size, lines, top);
    let point_table = turn::point_table();
    smooth::smooth(size, first, list, &point_table, before, next, other);
    close::close(
        size,
        first,
        list,
        &point_table,
        before,
        lines,
        top,
        next,
        other,
    );
}

// Steps 3 to 5, but for totals and parents, from the lines that remain and the sides before the join: curves are settled, the names
// a and b become the smaller. The tops of the pieces are left in top; the list leads to every point where there is something to
// settle.
fn settle(
    size: Size,
    a: u16,
    b: u16,
    first: u16,
    list: &[u16],
    lines: &[u16],
    side: &mut [u16],
    next: &mut [u16],
    other: &mut [u16],
    top: &mut [u16],
)
    requires { (length lines.now ≡ slots size.width size.height) ×
        (length side.old ≡ slots size.width size.height) × (length next.old ≡ slots size.width size.height) ×
        (length top.old ≡ points size.width size.height) × (length list.now ≡ slots size.width size.height) ×
        Visits size.width size.height (on lines.now) (links next.old other.old) first list.now }
    ensures { (links next.new other.new ≡
        closed size.width size.height (on lines.now)
        (smoothed size.width size.height (links next.old other.old))) ×
        (side.new ≡
        table (length side.old)
        (λ d. cond (on lines.now d) (lower a b (at side.old d)) mark)) ×
        (top.new ≡ tops size.width size.height (on lines.now)) }
{
    settle_curves(size, first, list, side, lines, next, other, top);
    side::lower_sides(a, b, lines, side);
}

// Joining of the regions a and b by the removal rule, but for the parents, which are left to `find_parents`: in the other six tables
// of a drawing. The tops of the pieces are left at the front of back; list is work.
pub fn unite(
    size: Size,
    a: u16,
    b: u16,
    next1: &mut [u16],
    side1: &mut [u16],
    next3: &mut [u16],
    other3: &mut [u16],
    cells: &mut [u16],
    borders: &mut [u16],
    back: &mut [u16],
    list: &mut [u16],
)
    requires { Ready size.width size.height
        (found size.width size.height next1.old side1.old next3.old other3.old cells.old borders.old)
        (pair back.old list.old)
        a
        b }
    ensures { (found size.width size.height next1.new side1.new next3.new other3.new cells.new
        borders.new ≡
        joined size.width size.height
        (found size.width size.height next1.old side1.old next3.old other3.old
        cells.old borders.old)
        a
        b) ×
        Topped size.width size.height side1.new back.new }
{
    let first = list::list_darts(side1, a, b, list);
    let gone = shared::remove_plain_shared(size, side1, a, b, first, list, next1, back);
    total::add_totals(a, b, gone, cells, borders);
    let first3 = list::narrow(next3, first, list);
    shared::remove_shared(
        size.width,
        size.height,
        side1,
        a,
        b,
        first3,
        list,
        next3,
        other3,
    );
    let n = dart::points(size) as usize;
    settle(
        size,
        a,
        b,
        first3,
        list,
        next1,
        side1,
        next3,
        other3,
        &mut back[..n],
    );
}

// Step 5, parents: found from the sides of the lines that remain and the tops of their pieces, which stand at the front of back.
// Back and list are left with every entry 0.
pub fn find_parents(
    size: Size,
    side1: &[u16],
    parent: &mut [u16],
    back: &mut [u16],
    list: &mut [u16],
)
    requires { (length side1.now ≡ slots size.width size.height) ×
        (length parent.old ≡ size.width * size.height + 1) × (length back.old ≡ slots size.width size.height) ×
        Topped size.width size.height side1.now back.old }
    ensures { (parent.new ≡ parents size.width size.height (on side1.now) (at side1.now)) ×
        (pair back.new list.new ≡ cleared (pair back.old list.old)) }
{
    let n = dart::points(size) as usize;
    parent::find_parents(size, side1, &back[..n], parent);
    entry::clear(back);
    entry::clear(list);
}

// Joining of the regions a and b by the removal rule, in the seven tables of a drawing. Back and list are work tables, which
// are left with every entry 0.
pub fn apply(
    size: Size,
    a: u16,
    b: u16,
    next1: &mut [u16],
    side1: &mut [u16],
    next3: &mut [u16],
    other3: &mut [u16],
    parent: &mut [u16],
    cells: &mut [u16],
    borders: &mut [u16],
    back: &mut [u16],
    list: &mut [u16],
)
    requires { Ready size.width size.height (tables next1.old side1.old next3.old other3.old parent.old cells.old borders.old)
        (pair back.old list.old)
        a
        b }
    ensures { (tables next1.new side1.new next3.new other3.new parent.new
        cells.new borders.new ≡
        joined size.width size.height
        (tables next1.old side1.old next3.old other3.old
        parent.old cells.old borders.old)
        a
        b) ×
        (pair back.new list.new ≡ cleared (pair back.old list.old)) }
{
    unite(
        size, a, b, next1, side1, next3, other3, cells, borders, back, list,
    );
    find_parents(size, side1, parent, back, list);
}
