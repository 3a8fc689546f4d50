ghost use Rattle.std.specs.Prelude.{◌≡◌, ◌+◌, ◌<◌, ◌≤◌, length};
ghost use Rattle.sheet_size.specs.Size.{widest};
ghost use Rattle.point_darts.specs.Dart.{mark, points, slots, dart};
ghost use Rattle.paper.specs.Level.{tops};
ghost use Rattle.paper.specs.Joining.{on};
ghost use Rattle.table_forest.specs.Forest.{Grown};
ghost use Rattle.level_pieces.specs.Piece.{toward, Pieced};

use point_darts::dart;
use point_darts::dart::Dart;
use sheet_size::Size;
use table_forest::nodes;

// The point so many points before a point where the dart is on, else the point itself. No point lies before point 0. With one
// function for all rows, which never goes below point 0 (`saturating_sub`), the pieces take 1.6 to 2.3 times as long.
fn toward_first(side: &[u16], dart: u16, point: u16, back: u16) -> u16
    requires { dart < length side.now }
    ensures { result ≡ toward side.now dart point back }
{
    if side[dart as usize] == dart::MARK {
        return point;
    }
    if point < back {
        return 0;
    }
    point - back
}

// The same, where the point lies so far on. It is one choice of two numbers, since which darts are on is hard to foresee.
fn toward(side: &[u16], dart: u16, point: u16, back: u16) -> u16
    requires { (dart < length side.now) × (back ≤ point) }
    ensures { result ≡ toward side.now dart point back }
{
    if side[dart as usize] == dart::MARK {
        point
    } else {
        point - back
    }
}

// A point of the first row more among the pieces of the points before it.
fn grow_first(width: u16, side: &[u16], top: &mut [u16], p: u16)
    requires { (width ≤ widest) × (dart p 3 < mark) × (dart p 3 < length side.now) × (p < length top.old) × Grown p top.old }
    ensures { Pieced width side.now p top.old top.new }
{
    let w = toward_first(side, Dart::leaving(p, Dart::WEST).number, p, 1);
    let n = toward_first(side, Dart::leaving(p, Dart::NORTH).number, p, width + 1);
    nodes::plant(top, p, w, n);
}

// The same, of a point below the first row.
fn grow(width: u16, side: &[u16], top: &mut [u16], p: u16)
    requires { (width ≤ widest) × (width + 1 ≤ p) × (dart p 3 < mark) × (dart p 3 < length side.now) ×
        (p < length top.old) × Grown p top.old }
    ensures { Pieced width side.now p top.old top.new }
{
    let w = toward(side, Dart::leaving(p, Dart::WEST).number, p, 1);
    let n = toward(side, Dart::leaving(p, Dart::NORTH).number, p, width + 1);
    nodes::plant(top, p, w, n);
}

// The top of the piece of each point: pieces are points that lines which are present join, by the sides of level 1. The first
// row of points is a pass of its own.
pub fn top_points(size: Size, side: &[u16], top: &mut [u16])
    requires { (length side.now ≡ slots size.width size.height) ×
        (length top.old ≡ points size.width size.height) }
    ensures { top.new ≡ tops size.width size.height (on side.now) }
{
    let n = dart::points(size);
    let row = size.width + 1;
    for p in 0..row {
        grow_first(size.width, side, top, p);
    }
    for p in row..n {
        grow(size.width, side, top, p);
    }
    nodes::flatten(top);
}
