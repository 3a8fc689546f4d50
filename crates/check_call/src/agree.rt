ghost use Rattle.std.specs.Prelude.{◌≡◌, true, List, ℕ, ◌+◌, ◌*◌, length, take};
ghost use Rattle.point_darts.specs.Dart.{points, slots};
ghost use Rattle.region_names.specs.Frame.{surround};
ghost use Rattle.region_totals.specs.Tally.{Named};
ghost use Rattle.drawing.specs.Parts.{round_of, masks_of, lines_agree, totals_agree, curves_agree};

use crate::labels;
use drawing::parts;
use region_names::names;
use sheet_size::Size;
use table_entries::entry;

// The names of the sheet whose labels the sides of level 1 tell, with the outside round them, at the front of a work table. Two work
// tables are used up.
pub fn recover_names(size: Size, side1: &[u16], a: &mut [u16], b: &mut [u16], c: &mut [u16])
    requires { (length side1.now ≡ slots size.width size.height) × (length a.old ≡ slots size.width size.height) ×
        (length b.old ≡ slots size.width size.height) × (length c.old ≡ slots size.width size.height) }
    ensures { take (surround size.width size.height) a.new ≡ round_of size.width size.height side1.now }
{
    let cells = (size.width * size.height) as usize;
    labels::recover(size, side1, &mut c[..cells]);
    names::name_cells(size, &c[..cells], b, a);
}

// Whether the totals are those of the sheet whose names, with the outside round them, are at the front of a work table. Three work tables
// are used up.
pub fn totals_agree(
    size: Size,
    cells: &[u16],
    borders: &[u16],
    a: &[u16],
    b: &mut [u16],
    c: &mut [u16],
    d: &mut [u16],
) -> bool
    requires { (length a.now ≡ slots size.width size.height) ×
        Named (size.width * size.height + 1) (take (surround size.width size.height) a.now) ×
        (length b.old ≡ slots size.width size.height) × (length c.old ≡ slots size.width size.height) ×
        (length d.old ≡ slots size.width size.height) }
    ensures { (s : List ℕ) → take (surround size.width size.height) a.now ≡ round_of size.width size.height s →
        result ≡ totals_agree size.width size.height s cells.now borders.now }
{
    let names = (size.width * size.height + 1) as usize;
    parts::draw_totals(size, a, &mut c[..names], &mut d[..names], b);
    entry::both_same(cells, &c[..names], borders, &d[..names])
}

// Whether next and side of level 1 are those of the sheet whose names, with the outside round them, are at the front of a work table. The
// masks of the points come out at the front of another.
pub fn lines_agree(
    size: Size,
    next1: &[u16],
    side1: &[u16],
    a: &[u16],
    b: &mut [u16],
    c: &mut [u16],
    d: &mut [u16],
) -> bool
    requires { (length a.now ≡ slots size.width size.height) × (length b.old ≡ slots size.width size.height) ×
        (length c.old ≡ slots size.width size.height) × (length d.old ≡ slots size.width size.height) ×
        (take (surround size.width size.height) a.now ≡ round_of size.width size.height side1.now) }
    ensures { (result ≡ lines_agree size.width size.height next1.now side1.now) ×
        (take (points size.width size.height) b.new ≡ masks_of size.width size.height side1.now) }
{
    parts::draw_lines(size, a, b, c, d);
    entry::both_same(next1, c, side1, d)
}

// Whether level 3 and the parents are those of these next and sides of level 1, which agree; the masks of its points are given.
pub fn curves_agree(
    size: Size,
    next1: &[u16],
    side1: &[u16],
    next3: &[u16],
    other3: &[u16],
    parent: &[u16],
    a: &mut [u16],
    b: &mut [u16],
    c: &mut [u16],
    d: &mut [u16],
) -> bool
    requires { (length side1.now ≡ slots size.width size.height) × (length a.old ≡ slots size.width size.height) ×
        (length b.old ≡ slots size.width size.height) × (length c.old ≡ slots size.width size.height) ×
        (length d.old ≡ slots size.width size.height) × (length next1.now ≡ slots size.width size.height) ×
        (lines_agree size.width size.height next1.now side1.now ≡ true) ×
        (take (points size.width size.height) b.old ≡ masks_of size.width size.height side1.now) }
    ensures { result ≡
        curves_agree size.width size.height next1.now side1.now next3.now other3.now
        parent.now
        (take (points size.width size.height) b.old) }
{
    parts::keep_points(size, side1, b, a, c);
    parts::draw_curves(size, next1, c, d, b);
    let names = (size.width * size.height + 1) as usize;
    parts::draw_parents(size, side1, a, &mut c[..names]);
    if !entry::both_same(next3, d, other3, b) {
        return false;
    }
    entry::same(parent, &c[..names])
}
