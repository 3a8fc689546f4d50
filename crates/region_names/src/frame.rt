ghost use Rattle.std.specs.Prelude.{◌≡◌, map, suc, ◌+◌, ◌*◌, ◌≤◌, ◌<◌, length, get_or};
ghost use Rattle.point_darts.specs.Dart.{mark, points};
ghost use Rattle.table_entries.specs.Row.{rowed};
ghost use Rattle.region_names.specs.Frame.{Down, framed};

use sheet_size::Size;
use table_entries::entry;

// The names of a row of cells, 1 plus the first cells from a place on, set side by side from a place of the names on.
#[tactic(auto, unfolding(point_darts::specs::Dart::mark))]
fn frame_row(width: usize, first: &[u16], names: &mut [u16], from: usize, to: usize)
    requires { (from + width ≤ length first.now) × (length first.now < mark) × Down (length first.now) first.now ×
        (to + width ≤ length names.old) × (length names.old < mark) }
    ensures { names.new ≡
        rowed (λ x. suc (get_or first.now (from + x) 0)) to width names.old }
{
    for x in 0..width {
        names[to + x] = first[from + x] + 1;
    }
}

// The names with the outside round them: for each point the name of the cell north-west of it, in rows of width + 1,
// with one row and one entry more. The four cells round point p are at p, p + 1, p + width + 1 and p + width + 2. No
// first cell is later than its place. The outside is 0 everywhere first, then the names are set row by row.
pub fn frame(size: Size, first: &[u16], names: &mut [u16])
    requires { (length first.now ≡ size.width * size.height) × Down (size.width * size.height) first.now ×
        (length names.old ≡ points size.width size.height + size.width + 2) }
    ensures { names.new ≡ framed size.width size.height (map suc first.now) }
{
    entry::clear(names);
    let cells = size.width as usize;
    let mut from: usize = 0;
    let mut to: usize = cells + 2;
    for _ in 0..size.height {
        frame_row(cells, first, names, from, to);
        from += cells;
        to += cells + 1;
    }
}
