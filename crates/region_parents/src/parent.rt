ghost use Rattle.std.specs.Prelude.{◌≡◌, ◌+◌, ◌*◌, ◌≤◌, ◌<◌, length};
ghost use Rattle.laws.specs.Table.{table};
ghost use Rattle.point_darts.specs.Dart.{mark, points, slots, dart};
ghost use Rattle.paper.specs.Enclosure.{parent};
ghost use Rattle.paper.specs.Joining.{at, on};
ghost use Rattle.table_entries.specs.Row.{rowed};
ghost use Rattle.region_parents.specs.Corner.{parent_from};
ghost use Rattle.region_parents.specs.Tops.{Rising};

use point_darts::dart;
use point_darts::dart::Dart;
use sheet_size::Size;

// The parent of the region of a name, from the corner of the cell that comes first if the name is in use; else the mark.
// The dart that leads back from the top's dart east leaves the next point west. Its side is read either way and the mark
// chosen last, since which names are in use is hard to foresee.
fn parent_at(width: u16, side: &[u16], tops: &[u16], corner: u16, name: u16) -> u16
    requires { (dart (corner + 1) 3 < length side.now) × (length side.now < mark) × (corner < length tops.now) ×
        Rising tops.now × (name < mark) }
    ensures { result ≡ parent_from width side.now tops.now corner name }
{
    let first = side[dart::first_slot(corner)];
    let top = tops[corner as usize];
    let out = side[dart::first_slot(top + 1) + Dart::WEST as usize];
    let other: u16 = if first == name { 0 } else { 1 };
    out.max(dart::MARK * other)
}

// The parents of the names of a row of cells, which begin with this name, from their corners, which begin with this one.
fn parents_row(width: u16, side: &[u16], tops: &[u16], parents: &mut [u16], corner: u16, name: u16)
    requires { (dart (corner + width) 3 < length side.now) × (length side.now < mark) ×
        (corner + width < length tops.now) × Rising tops.now × (name + width ≤ length parents.old) ×
        (length parents.old < mark) }
    ensures { parents.new ≡
        rowed (λ x. parent_from width side.now tops.now (corner + x) (name + x)) name width
        parents.old }
{
    for x in 0..width {
        parents[(name + x) as usize] = parent_at(width, side, tops, corner + x, name + x);
    }
}

// Step 5, parents: each region's parent, from the sides of the lines that remain and the tops of their pieces.
pub fn find_parents(size: Size, side: &[u16], tops: &[u16], parents: &mut [u16])
    requires { (length tops.now ≡ points size.width size.height) × Rising tops.now ×
        (length parents.old ≡ size.width * size.height + 1) × (length side.now ≡ slots size.width size.height) }
    ensures { parents.new ≡
        table (size.width * size.height + 1)
        (parent size.width (on side.now) (at side.now) tops.now) }
{
    parents[0] = dart::MARK;
    let mut corner: u16 = 0;
    let mut name: u16 = 1;
    for _ in 0..size.height {
        parents_row(size.width, side, tops, parents, corner, name);
        corner += size.width + 1;
        name += size.width;
    }
}
