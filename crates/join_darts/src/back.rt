ghost use Rattle.std.specs.Prelude.{◌≡◌, ◌+◌, ◌*◌, ◌<◌, length};
ghost use Rattle.laws.specs.Table.{table};
ghost use Rattle.point_darts.specs.Dart.{mark, slots, dart, reversal};
ghost use Rattle.table_entries.specs.Pointed.{pointed};

use point_darts::dart;
use sheet_size::Size;
use table_entries::entry;

// The reversals of the darts that leave a point.
fn put_reversals(width: u16, point: u16, back: &mut [u16])
    requires { (dart point 3 + 4 * (width + 2) < mark) × (dart point 3 < length back.old) }
    ensures { back.new ≡ pointed (reversal width) point back.old }
{
    let four = dart::reversals(point, width);
    entry::put_four(back, point, four.east, four.south, four.west, four.north);
}

// The reversal of every slot.
pub fn fill_reversals(size: Size, back: &mut [u16])
    requires { length back.old ≡ slots size.width size.height }
    ensures { back.new ≡ table (slots size.width size.height) (reversal size.width) }
{
    for point in 0..dart::points(size) {
        put_reversals(size.width, point, back);
    }
}
