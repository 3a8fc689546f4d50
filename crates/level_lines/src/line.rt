ghost use Rattle.std.specs.Prelude.{◌≡◌, cond, ℕ, ◌+◌, ◌*◌, ◌-◌, ◌≤◌, ◌<◌, eqb, length};
ghost use Rattle.point_darts.specs.Dart.{mark, points, slots, dart, reversal};
ghost use Rattle.point_rules.specs.Turn.{turn_of};
ghost use Rattle.paper.specs.Joining.{at};
ghost use Rattle.table_entries.specs.Pointed.{pointed};
ghost use Rattle.level_lines.specs.Line.{onward, nexts, others, entry_of};

use point_darts::dart;
use point_darts::dart::{Dart, Four};
use point_rules::turn;
use sheet_size::Size;
use table_entries::entry;

// A value where a line is present, that is, its bit is 1; else the mark.
fn where_present(bit: u16, value: u16) -> u16
    ensures { result ≡ cond (eqb bit 1) value mark }
{
    if bit == 1 { value } else { dart::MARK }
}

// Sets the entries of the four darts that leave a point: these where the masks have the line, else the mark. The entries are
// found either way and chosen last, since which lines are present is hard to foresee.
pub fn put_present(masks: &[u16], table: &mut [u16], p: u16, entries: Four)
    requires { (p < length masks.now) × (dart p 3 < length table.old) }
    ensures { (f : ℕ → ℕ) → entries.east ≡ f (dart p 0) → entries.south ≡ f (dart p 1) → entries.west ≡ f (dart p 2) →
        entries.north ≡ f (dart p 3) →
        table.new ≡ pointed (entry_of masks.now f) p table.old }
{
    let lines = masks[p as usize];
    let half = lines / 2;
    let quarter = half / 2;
    let east = where_present(lines % 2, entries.east);
    let south = where_present(half % 2, entries.south);
    let west = where_present(quarter % 2, entries.west);
    let north = where_present(quarter / 2 % 2, entries.north);
    entry::put_four(table, p, east, south, west, north);
}

// The dart that follows a line which leads in a direction to a point with these lines.
fn follow(far: u16, lines: u16, direction: u16) -> u16
    requires { far < 16383 }
    ensures { result ≡ dart far (turn_of lines direction) }
{
    Dart::leaving(far, turn::next_line(lines, direction).direction).number
}

// The darts that follow the four which leave a point, from the points that they lead to and the lines there.
fn follow_four(far: Four, lines: Four) -> Four
    requires { (far.east < 16383) × (far.south < 16383) × (far.west < 16383) × (far.north < 16383) }
    ensures { (result.east ≡ dart far.east (turn_of lines.east 0)) × (result.south ≡ dart far.south (turn_of lines.south 1)) ×
        (result.west ≡ dart far.west (turn_of lines.west 2)) × (result.north ≡ dart far.north (turn_of lines.north 3)) }
{
    Four {
        east: follow(far.east, lines.east, Dart::EAST),
        south: follow(far.south, lines.south, Dart::SOUTH),
        west: follow(far.west, lines.west, Dart::WEST),
        north: follow(far.north, lines.north, Dart::NORTH),
    }
}

// Next of the four darts that leave a point.
fn next_at(width: u16, masks: &[u16], next: &mut [u16], p: u16)
    requires { (p < length masks.now) × (dart p 3 + 4 * (width + 2) < mark) × (dart p 3 < length next.old) }
    ensures { next.new ≡
        pointed (entry_of masks.now (onward width masks.now)) p next.old }
{
    let far = dart::besides(p, width);
    let lines = Four {
        east: entry::get(masks, far.east),
        south: entry::get(masks, far.south),
        west: entry::get(masks, far.west),
        north: entry::get(masks, far.north),
    };
    put_present(masks, next, p, follow_four(far, lines));
}

// The lines at the four points beside a point, of which those south and north are given. No place is asked whether it is in
// the table, so the compiler takes many points at a time.
fn lines_beside(masks: &[u16], p: u16, south: u16, north: u16) -> Four
    requires { (1 ≤ p) × (p + 1 < length masks.now) }
    ensures { (result.east ≡ at masks.now (p + 1)) × (result.south ≡ south) × (result.west ≡ at masks.now (p - 1)) ×
        (result.north ≡ north) }
{
    let i = p as usize;
    let east = masks[i + 1];
    let west = masks[i - 1];
    Four {
        east,
        south,
        west,
        north,
    }
}

// The table of next of the lines that the masks have: at the far point the first line present of right turn, straight on,
// left turn and back. North of the first row of points stands point 0, and south of the last row none, so each of the two is a
// pass of its own. The first and the last point are taken alone.
pub fn nexts(size: Size, masks: &[u16], next: &mut [u16])
    requires { (length masks.now ≡ points size.width size.height) ×
        (length next.old ≡ slots size.width size.height) }
    ensures { next.new ≡ nexts size.width size.height masks.now }
{
    let n = dart::points(size);
    let row = size.width + 1;
    next_at(size.width, masks, next, 0);
    for p in 1..row {
        let far = dart::besides(p, size.width);
        let lines = lines_beside(masks, p, masks[(p + row) as usize], masks[0]);
        put_present(masks, next, p, follow_four(far, lines));
    }
    for p in row..n - row {
        let far = dart::besides(p, size.width);
        let south = masks[(p + row) as usize];
        let north = masks[(p - row) as usize];
        let lines = lines_beside(masks, p, south, north);
        put_present(masks, next, p, follow_four(far, lines));
    }
    for p in n - row..n - 1 {
        let far = dart::besides(p, size.width);
        let lines = lines_beside(masks, p, dart::MARK, masks[(p - row) as usize]);
        put_present(masks, next, p, follow_four(far, lines));
    }
    next_at(size.width, masks, next, n - 1);
}

// Other of the four darts that leave a point: the reversals.
fn other_at(width: u16, masks: &[u16], other: &mut [u16], p: u16)
    requires { (p < length masks.now) × (dart p 3 + 4 * (width + 2) < mark) × (dart p 3 < length other.old) }
    ensures { other.new ≡ pointed (entry_of masks.now (reversal width)) p other.old }
{
    put_present(masks, other, p, dart::reversals(p, width));
}

// The table of other of the lines that the masks have: the reversals.
pub fn others(size: Size, masks: &[u16], other: &mut [u16])
    requires { (length masks.now ≡ points size.width size.height) ×
        (length other.old ≡ slots size.width size.height) }
    ensures { other.new ≡ others size.width size.height masks.now }
{
    let n = dart::points(size);
    for p in 0..n {
        other_at(size.width, masks, other, p);
    }
}
