ghost use Rattle.std.specs.Prelude.{◌≡◌, ◌+◌, ◌≤◌};
ghost use Rattle.point_darts.specs.Dart.{mark};
ghost use Rattle.paper.specs.Joining.{at, added};

use point_darts::dart;
use table_entries::entry;

// What a and b have in a table of totals is added up, less so many, under the smaller of the two names; the larger has the mark.
pub fn add_up(a: u16, b: u16, less: u16, table: &mut [u16])
    requires { (at table.old a + at table.old b ≤ mark) × (less ≤ at table.old a + at table.old b) }
    ensures { table.new ≡ added a b less table.old }
{
    let sum = entry::get(table, a) + entry::get(table, b) - less;
    if a < b {
        entry::put_pair(table, a, sum, b, dart::MARK);
    } else {
        entry::put_pair(table, b, sum, a, dart::MARK);
    }
}

// Step 5, totals: cells are added, and border lines less the darts that went, which are twice the lines that the two regions
// share.
pub fn add_totals(a: u16, b: u16, gone: u16, cells: &mut [u16], borders: &mut [u16])
    requires { (at cells.old a + at cells.old b ≤ mark) × (at borders.old a + at borders.old b ≤ mark) ×
        (gone ≤ at borders.old a + at borders.old b) }
    ensures { (cells.new ≡ added a b 0 cells.old) ×
        (borders.new ≡ added a b gone borders.old) }
{
    add_up(a, b, 0, cells);
    add_up(a, b, gone, borders);
}
