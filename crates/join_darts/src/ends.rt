// The darts of a level that leave a point: which, and whether they are two, by the point table.
ghost use Rattle.std.specs.Prelude.{◌≡◌, ◌≤◌, ◌<◌, eqb};
ghost use Rattle.point_darts.specs.Dart.{mark, dart};
ghost use Rattle.point_darts.specs.Point.{degree};
ghost use Rattle.point_rules.specs.Turn.{point_table as the_point_table, becoming};
ghost use Rattle.paper.specs.Joining.{low, high};

use point_darts::dart::Dart;
use point_rules::turn;

// The first and the last dart of a level that leave a point.
#[derive(Clone, Copy)]
pub struct Ends {
    pub first: u16,
    pub last: u16,
}

// What a point becomes, by the point table, that had the lines before and has the lines left: the table is read at the
// lines present and those of them that are taken.
fn becoming(point_table: &[u16; 256], before: u16, left: u16) -> u16
    requires { (point_table.now ≡ the_point_table) × (before < 16) × (left < 16) }
    ensures { result ≡ becoming before left }
{
    let present = before | left;
    let taken = present - left;
    point_table[(16 * present + taken) as usize]
}

// Whether exactly two lines are left of those before: the point becomes two lines in line or a corner.
#[tactic(auto, using(crate::proofs::Seeing::two_in_line, crate::proofs::Seeing::two_corner))]
pub fn two(point_table: &[u16; 256], before: u16, left: u16) -> bool
    requires { (point_table.now ≡ the_point_table) × (before < 16) × (left < 16) }
    ensures { result ≡ eqb (degree left) 2 }
{
    let kind = becoming(point_table, before, left);
    if kind == turn::IN_LINE {
        return true;
    }
    kind == turn::CORNER
}

// The first direction of a mask; 3 where it has none.
fn low(lines: u16) -> u16
    ensures { (result ≡ low lines) × (result ≤ 3) }
{
    if lines % 2 == 1 {
        return 0;
    }
    if lines / 2 % 2 == 1 {
        return 1;
    }
    if lines / 2 / 2 % 2 == 1 {
        return 2;
    }
    3
}

// The last direction of a mask; 0 where it has none.
fn high(lines: u16) -> u16
    ensures { (result ≡ high lines) × (result ≤ 3) }
{
    if lines / 2 / 2 / 2 % 2 == 1 {
        return 3;
    }
    if lines / 2 / 2 % 2 == 1 {
        return 2;
    }
    if lines / 2 % 2 == 1 {
        return 1;
    }
    0
}

// The first and the last dart of a mask's lines that leave a point.
pub fn seen(lines: u16, point: u16) -> Ends
    requires { dart point 3 < mark }
    ensures { (result.first ≡ dart point (low lines)) × (result.last ≡ dart point (high lines)) }
{
    Ends {
        first: Dart::leaving(point, low(lines)).number,
        last: Dart::leaving(point, high(lines)).number,
    }
}
