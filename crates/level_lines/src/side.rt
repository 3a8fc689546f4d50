ghost use Rattle.std.specs.Prelude.{◌≡◌, ◌+◌, ◌<◌, length};
ghost use Rattle.point_darts.specs.Dart.{points, slots, dart};
ghost use Rattle.table_entries.specs.Pointed.{pointed};
ghost use Rattle.level_lines.specs.Line.{entry_of};
ghost use Rattle.level_lines.specs.Side.{beheld, sides};

use crate::line;
use level_masks::mask;
use point_cells::point;
use point_darts::dart;
use point_darts::dart::{Dart, Four};
use sheet_size::Size;

// The sides of the four darts that leave a point.
fn side_at(width: u16, framed: &[u16], masks: &[u16], side: &mut [u16], p: u16)
    requires { (p < length masks.now) × (p + (width + 2) < length framed.now) × (dart p 3 < length side.old) }
    ensures { side.new ≡
        pointed (entry_of masks.now (beheld width framed.now)) p side.old }
{
    let cells = mask::around(width, framed, p);
    let right = Four {
        east: point::right(cells, Dart::EAST),
        south: point::right(cells, Dart::SOUTH),
        west: point::right(cells, Dart::WEST),
        north: point::right(cells, Dart::NORTH),
    };
    line::put_present(masks, side, p, right);
}

// The table of sides of the lines that the masks have, from the names with the outside round them.
pub fn sides(size: Size, framed: &[u16], masks: &[u16], side: &mut [u16])
    requires { (length framed.now ≡ points size.width size.height + size.width + 2) ×
        (length masks.now ≡ points size.width size.height) × (length side.old ≡ slots size.width size.height) }
    ensures { side.new ≡ sides size.width size.height framed.now masks.now }
{
    let n = dart::points(size);
    for p in 0..n {
        side_at(size.width, framed, masks, side, p);
    }
}
