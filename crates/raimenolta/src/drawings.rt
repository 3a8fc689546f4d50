// What is asked of a drawing: whether it is one, to join two of its regions or many by a list, the depth and the holes of its regions,
// and the turns of its curves.
// C lends each table by itself, so functions that differ in one call have much the same text.
ghost use Rattle.std.specs.Prelude.{◌≡◌, [], ◌∷◌, ◌++◌};
ghost use Rattle.paper.specs.Refusal.{ended, seven, merged, deepened, holed};
ghost use Rattle.paper.specs.Order.{merged_list};
ghost use Rattle.table_lengths.specs.Given.{tables, works};
ghost use Rattle.check_answer.specs.Check.{checked};
ghost use Rattle.count_call.specs.Tally.{tallied, traced};
ghost use Rattle.join_call.specs.Faithful.{Faithful};
ghost use Rattle.raimenolta.specs.Slot.{slotted, place_slotted};

use check_call::check;
use raimenolta_values::{count, list};

// Checks whether the seven tables are the drawing of some sheet of this size. Refusals 1, 4 and 5.
#[unsafe(no_mangle)]
pub extern "C" fn raimenolta_check(
    width: u16,
    height: u16,
    next1: &[u16],
    side1: &[u16],
    next3: &[u16],
    other3: &[u16],
    parent: &[u16],
    cells: &[u16],
    borders: &[u16],
    work_a: &mut [u16],
    work_b: &mut [u16],
    work_c: &mut [u16],
    work_d: &mut [u16],
) -> u16
    ensures { ended result []
        (seven
        (tables next1.now side1.now next3.now other3.now parent.now
        cells.now borders.now))
        (works work_a.new work_b.new work_c.new work_d.new) ≡
        checked width height
        (tables next1.now side1.now next3.now other3.now parent.now
        cells.now borders.now)
        (works work_a.old work_b.old work_c.old work_d.old) }
{
    let answer = check::check(
        width, height, next1, side1, next3, other3, parent, cells, borders, work_a, work_b, work_c,
        work_d,
    );
    answer::number(answer)
}

// Joins the regions a and b of a drawing, in its seven tables, which come to equal the drawing afresh. Refusals 1, 4, 5, 6,
// 7, 8 and 9.
#[unsafe(no_mangle)]
pub extern "C" fn raimenolta_join(
    width: u16,
    height: u16,
    next1: &mut [u16],
    side1: &mut [u16],
    next3: &mut [u16],
    other3: &mut [u16],
    parent: &mut [u16],
    cells: &mut [u16],
    borders: &mut [u16],
    a: u16,
    b: u16,
    work_a: &mut [u16],
    work_b: &mut [u16],
    work_c: &mut [u16],
    work_d: &mut [u16],
) -> u16
    ensures { (ended result []
        (seven
        (tables next1.new side1.new next3.new other3.new parent.new
        cells.new borders.new))
        (works work_a.new work_b.new work_c.new work_d.new) ≡
        merged width height
        (tables next1.old side1.old next3.old other3.old parent.old
        cells.old borders.old)
        a
        b
        (works work_a.old work_b.old work_c.old work_d.old)) ×
        (result ≡ 0 →
        Faithful width height
        (tables next1.old side1.old next3.old other3.old parent.old
        cells.old borders.old)
        (tables next1.new side1.new next3.new other3.new parent.new
        cells.new borders.new)
        a
        b) }
{
    let joined = join_call::regions::join(
        width, height, next1, side1, next3, other3, parent, cells, borders, a, b, work_a, work_b,
        work_c, work_d,
    );
    answer::number(joined)
}

// Joins by a list of names, two by two, in the seven tables of a drawing, which is checked once: one entry after another, up to the
// first that is refused. Refusals 1, 4, 12, 5, then 6 to 9. A refusal puts its place into a lent slot; the joins before it stay.
#[unsafe(no_mangle)]
pub extern "C" fn raimenolta_join_list(
    width: u16,
    height: u16,
    next1: &mut [u16],
    side1: &mut [u16],
    next3: &mut [u16],
    other3: &mut [u16],
    parent: &mut [u16],
    cells: &mut [u16],
    borders: &mut [u16],
    names: &[u16],
    place: &mut u16,
    work_a: &mut [u16],
    work_b: &mut [u16],
    work_c: &mut [u16],
    work_d: &mut [u16],
) -> u16
    ensures { ended result []
        (seven
        (tables next1.new side1.new next3.new other3.new parent.new
        cells.new borders.new) ++
        (place.new ∷ []) ∷ [])
        (works work_a.new work_b.new work_c.new work_d.new) ≡
        place_slotted
        (merged_list width height
        (tables next1.old side1.old next3.old other3.old parent.old
        cells.old borders.old)
        names.now
        (works work_a.old work_b.old work_c.old work_d.old))
        (place.old ∷ []) }
{
    let answer = join_call::list::join_list(
        width, height, next1, side1, next3, other3, parent, cells, borders, names, work_a, work_b,
        work_c, work_d,
    );
    list::put(list::numbers(answer), place)
}

// Puts the depth of a region, or of the outside for the name 0, into a lent slot. Refusals 1, 4, 5 and 8, which leave the
// slot as it was.
#[unsafe(no_mangle)]
pub extern "C" fn raimenolta_depth(
    width: u16,
    height: u16,
    next1: &[u16],
    side1: &[u16],
    next3: &[u16],
    other3: &[u16],
    parent: &[u16],
    cells: &[u16],
    borders: &[u16],
    name: u16,
    depth: &mut u16,
    work_a: &mut [u16],
    work_b: &mut [u16],
    work_c: &mut [u16],
    work_d: &mut [u16],
) -> u16
    ensures { ended result []
        (seven
        (tables next1.now side1.now next3.now other3.now parent.now
        cells.now borders.now) ++
        (depth.new ∷ []) ∷ [])
        (works work_a.new work_b.new work_c.new work_d.new) ≡
        slotted
        (deepened width height
        (tables next1.now side1.now next3.now other3.now parent.now
        cells.now borders.now)
        name
        (works work_a.old work_b.old work_c.old work_d.old))
        (depth.old ∷ []) }
{
    let answer = count_call::count::depth(
        width, height, next1, side1, next3, other3, parent, cells, borders, name, work_a, work_b,
        work_c, work_d,
    );
    count::put(count::numbers(answer), depth)
}

// Puts the hole count of a region, or of the outside for the name 0, into a lent slot. Refusals 1, 4, 5 and 8, which leave
// the slot as it was.
#[unsafe(no_mangle)]
pub extern "C" fn raimenolta_holes(
    width: u16,
    height: u16,
    next1: &[u16],
    side1: &[u16],
    next3: &[u16],
    other3: &[u16],
    parent: &[u16],
    cells: &[u16],
    borders: &[u16],
    name: u16,
    holes: &mut u16,
    work_a: &mut [u16],
    work_b: &mut [u16],
    work_c: &mut [u16],
    work_d: &mut [u16],
) -> u16
    ensures { ended result []
        (seven
        (tables next1.now side1.now next3.now other3.now parent.now
        cells.now borders.now) ++
        (holes.new ∷ []) ∷ [])
        (works work_a.new work_b.new work_c.new work_d.new) ≡
        slotted
        (holed width height
        (tables next1.now side1.now next3.now other3.now parent.now
        cells.now borders.now)
        name
        (works work_a.old work_b.old work_c.old work_d.old))
        (holes.old ∷ []) }
{
    let answer = count_call::count::holes(
        width, height, next1, side1, next3, other3, parent, cells, borders, name, work_a, work_b,
        work_c, work_d,
    );
    count::put(count::numbers(answer), holes)
}

// Depth and hole count of every name at once, the mark for a name that is not in use. Refusals 1, 4 and 5.
#[unsafe(no_mangle)]
pub extern "C" fn raimenolta_counts(
    width: u16,
    height: u16,
    next1: &[u16],
    side1: &[u16],
    next3: &[u16],
    other3: &[u16],
    parent: &[u16],
    cells: &[u16],
    borders: &[u16],
    depths: &mut [u16],
    holes: &mut [u16],
    work_a: &mut [u16],
    work_b: &mut [u16],
    work_c: &mut [u16],
    work_d: &mut [u16],
) -> u16
    ensures { ended result []
        (seven
        (tables next1.now side1.now next3.now other3.now parent.now
        cells.now borders.now) ++
        depths.new ∷ holes.new ∷ [])
        (works work_a.new work_b.new work_c.new work_d.new) ≡
        tallied width height
        (tables next1.now side1.now next3.now other3.now parent.now
        cells.now borders.now)
        depths.old
        holes.old
        (works work_a.old work_b.old work_c.old work_d.old) }
{
    let answer = count_call::count::counts(
        width, height, next1, side1, next3, other3, parent, cells, borders, depths, holes, work_a,
        work_b, work_c, work_d,
    );
    answer::number(answer)
}

// The right turns and the left turns of every dart of level 3, the mark at every other slot. Refusals 1, 4 and 5.
#[unsafe(no_mangle)]
pub extern "C" fn raimenolta_turns(
    width: u16,
    height: u16,
    next1: &[u16],
    side1: &[u16],
    next3: &[u16],
    other3: &[u16],
    parent: &[u16],
    cells: &[u16],
    borders: &[u16],
    right: &mut [u16],
    left: &mut [u16],
    work_a: &mut [u16],
    work_b: &mut [u16],
    work_c: &mut [u16],
    work_d: &mut [u16],
) -> u16
    ensures { ended result []
        (seven
        (tables next1.now side1.now next3.now other3.now parent.now
        cells.now borders.now) ++
        right.new ∷ left.new ∷ [])
        (works work_a.new work_b.new work_c.new work_d.new) ≡
        traced width height
        (tables next1.now side1.now next3.now other3.now parent.now
        cells.now borders.now)
        right.old
        left.old
        (works work_a.old work_b.old work_c.old work_d.old) }
{
    let answer = count_call::turns::turns(
        width, height, next1, side1, next3, other3, parent, cells, borders, right, left, work_a,
        work_b, work_c, work_d,
    );
    answer::number(answer)
}
