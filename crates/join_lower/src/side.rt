ghost use Rattle.std.specs.Prelude.{◌≡◌, cond, not, eqb, length};
ghost use Rattle.laws.specs.Least.{lower};
ghost use Rattle.laws.specs.Table.{table};
ghost use Rattle.point_darts.specs.Dart.{mark};
ghost use Rattle.paper.specs.Joining.{at, on};

use point_darts::dart;

// The larger of the names a and b becomes the smaller; every other name stays.
fn lowered(a: u16, b: u16, name: u16) -> u16
    ensures { result ≡ lower a b name }
{
    if a < b {
        if name == b {
            return a;
        }
        return name;
    }
    if name == a {
        return b;
    }
    name
}

// The side of a dart that remains, by its next; the mark for one that does not.
fn side_left(a: u16, b: u16, next: u16, side: u16) -> u16
    ensures { result ≡ cond (not (eqb next mark)) (lower a b side) mark }
{
    if next == dart::MARK {
        return dart::MARK;
    }
    lowered(a, b, side)
}

// Step 5, sides: the sides of the lines that remain, the names a and b made the smaller of the two.
pub fn lower_sides(a: u16, b: u16, lines: &[u16], side: &mut [u16])
    requires { length lines.now ≡ length side.old }
    ensures { side.new ≡
        table (length side.old)
        (λ d. cond (on lines.now d) (lower a b (at side.old d)) mark) }
{
    for i in 0..side.len() {
        side[i] = side_left(a, b, lines[i], side[i]);
    }
}
