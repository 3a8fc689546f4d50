ghost use Rattle.std.specs.Prelude.{◌≡◌, true, List, map, ℕ, suc, ◌*◌, ◌-◌, ◌<◌, length, get_or, take};
ghost use Rattle.laws.specs.Table.{table};
ghost use Rattle.point_darts.specs.Dart.{slots};
ghost use Rattle.paper.specs.Drawing.{Tables, Drawn};
ghost use Rattle.paper.specs.Order.{whole};
ghost use Rattle.table_forest.specs.Forest.{Forest, Grown};
ghost use Rattle.answer.specs.Answer.{number_of};
ghost use Rattle.region_names.specs.Frame.{surround, framed};
ghost use Rattle.join_groups.specs.Group.{Standing, Regrouped};

use crate::each;
use answer::Refusal;
use check_call::labels;
use point_darts::dart;
use region_darts::list;
use region_names::frame;
use sheet_size::Size;
use table_forest::nodes;

// Where a list stops: what is answered there, and how many entries were joined.
#[derive(Clone, Copy)]
pub struct End {
    pub answer: Result<(), Refusal>,
    pub place: u16,
}

// Takes one from each entry, so that a name gives way to the first cell of its region.
fn take_one(names: &mut [u16])
    requires { (i : ℕ) → i < length names.old → 0 < get_or names.old i 0 }
    ensures { names.new ≡ table (length names.old) (λ i. get_or names.old i 0 - 1) }
{
    for name in names.iter_mut() {
        *name -= 1;
    }
}

// At the start the regions of the drawing are the groups: the first cell of each cell's region, and the darts of each in a list.
fn start(
    size: Size,
    side: &[u16],
    groups: &mut [u16],
    list: &mut [u16],
    first: &mut [u16],
    last: &mut [u16],
)
    requires { (length side.now ≡ slots size.width size.height) × (length groups.old ≡ size.width * size.height) ×
        (length list.old ≡ slots size.width size.height) × (length first.old ≡ slots size.width size.height) ×
        (length last.old ≡ slots size.width size.height) ×
        ((t : Tables) × Drawn size.width size.height t × (t.side1 ≡ side.now)) }
    ensures { (t : Tables) → Drawn size.width size.height t → t.side1 ≡ side.now →
        Standing size.width size.height side.now t.cells groups.new list.new first.new
        last.new
        t }
{
    labels::recover(size, side, groups);
    take_one(groups);
    list::list_sides(side, list, first, last);
}

// At the end the names of the cells by their groups, with the outside round them, at the front of a work table.
fn frame_groups(size: Size, groups: &mut [u16], round: &mut [u16])
    requires { (length groups.old ≡ size.width * size.height) × (length round.old ≡ slots size.width size.height) ×
        Grown (length groups.old) groups.old }
    ensures { (l : List ℕ) → Forest (length groups.old) l groups.old →
        take (surround size.width size.height) round.new ≡ framed size.width size.height (map suc l) }
{
    nodes::flatten(groups);
    let around = (dart::points(size) + size.width + 2) as usize;
    frame::frame(size, groups, &mut round[..around]);
}

// The entries of a list are joined as groups. The names that they leave come out at the front of the list's work table, with the
// outside round them.
pub fn regroup(
    size: Size,
    names: &[u16],
    side: &[u16],
    cells: &mut [u16],
    groups: &mut [u16],
    list: &mut [u16],
    first: &mut [u16],
    last: &mut [u16],
) -> End
    requires { (whole size.width (length names.now) ≡ true) ×
        (length side.now ≡ slots size.width size.height) × (length groups.old ≡ size.width * size.height) ×
        (length list.old ≡ slots size.width size.height) × (length first.old ≡ slots size.width size.height) ×
        (length last.old ≡ slots size.width size.height) ×
        ((t : Tables) × Drawn size.width size.height t × (t.side1 ≡ side.now) × (t.cells ≡ cells.old)) }
    ensures { (t : Tables) → Drawn size.width size.height t → t.side1 ≡ side.now → t.cells ≡ cells.old →
        Regrouped size.width size.height names.now (number_of result.answer) result.place t list.new }
{
    start(size, side, groups, list, first, last);
    let end = each::join_each(size.width, names, side, cells, groups, list, first, last);
    frame_groups(size, groups, list);
    end
}
