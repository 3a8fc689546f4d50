// The tally of the cells and border lines of each name. Every point stands for the cell south-east of it. A region has as many
// lines at the left of its cells as at their right, and as many at their top as at their bottom, so that those at the left and at
// the top are counted twice.
//
// Even points are tallied in two tables, odd points in a third, which has two entries for each name, the second as many places on as
// there are names: adding to one entry again and again is slow.
ghost use Rattle.std.specs.Prelude.{◌≡◌, not, List, ℕ, ◌+◌, ◌*◌, ◌≤◌, ◌<◌, eqb, length, get_or, set};
ghost use Rattle.laws.specs.Table.{number};
ghost use Rattle.point_darts.specs.Dart.{mark};
ghost use Rattle.region_totals.specs.Tally.{Named, Ruled, Tallied, Odd};

use table_entries::entry;

// Two where two names differ, else 0.
fn where_differ(a: u16, b: u16) -> u16
    ensures { (result ≡ 2 * number (not (eqb a b))) × (result ≤ 2) }
{
    if a == b { 0 } else { 2 }
}

// Twice how many of the left line and the top line of a cell are border lines: its name differs from that of the cell to its
// west, or to its north.
fn lines_of(name: u16, west: u16, north: u16) -> u16
    ensures { (result ≡ 2 * number (not (eqb name west)) + 2 * number (not (eqb name north))) × (result ≤ 4) }
{
    where_differ(name, west) + where_differ(name, north)
}

// The lines of the cell of each point, after the two entries of each name.
fn rule(width: u16, points: usize, names: usize, round: &[u16], odd: &mut [u16])
    requires { (length round.now ≡ points + width + 2) × (4 * points < mark) × (names ≤ points) ×
        Ruled width names points round.now 0 odd.old }
    ensures { Ruled width names points round.now points odd.new }
{
    let wide = width as usize;
    let lines = 2 * names;
    for p in 0..points {
        odd[lines + p] = lines_of(round[p + (wide + 2)], round[p + (wide + 1)], round[p + 1]);
    }
}

// Adds to an entry of a table.
fn add(table: &mut [u16], place: usize, amount: u16)
    requires { (place < length table.old) × (get_or table.old place 0 + amount ≤ mark) }
    ensures { table.new ≡ set table.old place (get_or table.old place 0 + amount) }
{
    table[place] += amount;
}

// A point more is tallied, an even one: its cell and the cell's lines, which the third table has.
fn tally_even(
    width: u16,
    points: usize,
    names: usize,
    round: &[u16],
    cells: &mut [u16],
    borders: &mut [u16],
    odd: &[u16],
    p: usize,
)
    requires { Named names round.now × (length round.now ≡ points + width + 2) × (4 * points < mark) × (names ≤ points) ×
        (p < points) × Tallied width names points round.now p cells.old borders.old odd.now }
    ensures { Tallied width names points round.now (p + 1) cells.new borders.new odd.now }
{
    let name = round[p + (width as usize + 2)] as usize;
    let lines = odd[2 * names + p];
    add(cells, name, 1);
    add(borders, name, lines);
}

// A point more is tallied, an odd one: its cell and the cell's lines.
fn tally_odd(width: u16, points: usize, names: usize, round: &[u16], odd: &mut [u16], p: usize)
    requires { Named names round.now × (length round.now ≡ points + width + 2) × (4 * points < mark) × (names ≤ points) ×
        (p < points) × Odd width names points round.now p odd.old }
    ensures { (c b : List ℕ) → Tallied width names points round.now p c b odd.old →
        Tallied width names points round.now (p + 1) c b odd.new }
{
    let name = round[p + (width as usize + 2)] as usize;
    let lines = odd[2 * names + p];
    add(odd, name, 1);
    add(odd, names + name, lines);
}

// All points are tallied, two at a time.
fn tally_points(
    width: u16,
    points: usize,
    names: usize,
    round: &[u16],
    cells: &mut [u16],
    borders: &mut [u16],
    odd: &mut [u16],
)
    requires { Named names round.now × (length round.now ≡ points + width + 2) × (4 * points < mark) × (names ≤ points) ×
        Tallied width names points round.now 0 cells.old borders.old odd.old }
    ensures { Tallied width names points round.now points cells.new borders.new odd.new }
{
    for pair in 0..points / 2 {
        let p = 2 * pair;
        tally_even(width, points, names, round, cells, borders, odd, p);
        tally_odd(width, points, names, round, odd, p + 1);
    }
    if points % 2 == 1 {
        tally_even(width, points, names, round, cells, borders, odd, points - 1);
    }
}

// The tally of a sheet, from the names with the outside round them.
pub fn tally(
    width: u16,
    points: usize,
    names: usize,
    round: &[u16],
    cells: &mut [u16],
    borders: &mut [u16],
    odd: &mut [u16],
)
    requires { Named names round.now × (length round.now ≡ points + width + 2) × (4 * points < mark) × (names ≤ points) ×
        (length cells.old ≡ names) × (length borders.old ≡ names) × (length odd.old ≡ 4 * points) }
    ensures { Tallied width names points round.now points cells.new borders.new odd.new }
{
    entry::clear(cells);
    entry::clear(borders);
    entry::clear(&mut odd[..2 * names]);
    rule(width, points, names, round, odd);
    tally_points(width, points, names, round, cells, borders, odd);
}
