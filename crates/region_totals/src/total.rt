// The totals of each name.
ghost use Rattle.std.specs.Prelude.{◌≡◌, ◌+◌, ◌*◌, ◌≤◌, ◌<◌, length};
ghost use Rattle.laws.specs.Table.{table};
ghost use Rattle.point_darts.specs.Dart.{mark, points, slots};
ghost use Rattle.region_names.specs.Frame.{surround};
ghost use Rattle.region_totals.specs.Tally.{Named, Small, cell_total, line_total};
ghost use Rattle.region_totals.specs.Total.{Totalled};

use crate::tally;
use point_darts::dart;
use sheet_size::Size;
use table_entries::entry;

// What three tables have tallied is added up, in the first two: the cells and the border lines of each name, the mark in both for a
// name without cells.
fn add_up(cells: &mut [u16], borders: &mut [u16], odd: &[u16])
    requires { (length borders.old ≡ length cells.old) × (2 * length cells.old ≤ length odd.now) ×
        (length odd.now < mark) × Small cells.old borders.old odd.now }
    ensures { (cells.new ≡ table (length cells.old) (cell_total cells.old odd.now)) ×
        (borders.new ≡
        table (length cells.old)
        (line_total (length cells.old) cells.old borders.old odd.now)) }
{
    let n = cells.len();
    for r in 0..n {
        let sum = cells[r] + odd[r];
        let lines = borders[r] + odd[n + r];
        cells[r] = entry::mark_where(sum, 0, sum);
        borders[r] = entry::mark_where(sum, 0, lines);
    }
}

// The totals of a sheet, from the names with the outside round them: how many cells and how many border lines each name has. The
// outside has no cell. Odd is work.
pub fn totals(size: Size, round: &[u16], cells: &mut [u16], borders: &mut [u16], odd: &mut [u16])
    requires { (length round.now ≡ surround size.width size.height) ×
        Named (size.width * size.height + 1) round.now × (length cells.old ≡ size.width * size.height + 1) ×
        (length borders.old ≡ size.width * size.height + 1) × (length odd.old ≡ slots size.width size.height) }
    ensures { Totalled size.width size.height round.now cells.new borders.new }
{
    let points = dart::points(size) as usize;
    let names = cells.len();
    tally::tally(size.width, points, names, round, cells, borders, odd);
    add_up(cells, borders, odd);
    cells[0] = 0;
}
