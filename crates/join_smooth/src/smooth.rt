ghost use Rattle.std.specs.Prelude.{◌≡◌, List, ℕ, ◌<◌, length};
ghost use Rattle.point_darts.specs.Dart.{mark, slots, dart};
ghost use Rattle.point_rules.specs.Turn.{point_table as the_point_table};
ghost use Rattle.paper.specs.Joining.{spliced, smooth, smooths, smoothed};
ghost use Rattle.join_darts.specs.Links.{links, splice};
ghost use Rattle.join_darts.specs.Visited.{Visited};

use join_darts::ends;
use point_darts::dart;
use point_darts::dart::Dart;
use sheet_size::Size;
use table_entries::{entry, present};

// Darts u and v go; the next of their others x and y become those of v and u.
fn splice_next(next: &mut [u16], u: u16, v: u16, x: u16, y: u16)
    ensures { (other : List ℕ) → next.new ≡ (spliced (links next.old other) u v x y).next }
{
    let after_v = entry::get(next, v);
    let after_u = entry::get(next, u);
    entry::put_pair(next, x, after_v, y, after_u);
    entry::put_pair(next, u, dart::MARK, v, dart::MARK);
}

// Darts u and v go; their others x and y become each other's other.
fn splice_other(other: &mut [u16], u: u16, v: u16, x: u16, y: u16)
    ensures { (next : List ℕ) → other.new ≡ (spliced (links next other.old) u v x y).other }
{
    entry::put_pair(other, x, y, y, x);
    entry::put_pair(other, u, dart::MARK, v, dart::MARK);
}

// Darts u and v, which alone leave a point, go where they are of two different edges.
fn smooth_edge(next: &mut [u16], other: &mut [u16], u: u16, v: u16)
    ensures { links next.new other.new ≡ splice (links next.old other.old) u v }
{
    let x = entry::get(other, u);
    if x == v {
        return;
    }
    let y = entry::get(other, v);
    splice_next(next, u, v, x, y);
    splice_other(other, u, v, x, y);
}

// A point goes where two darts of two different edges alone leave it. Before has entries for the lines before the join.
fn smooth_point(
    point_table: &[u16; 256],
    before: &[u16],
    next: &mut [u16],
    other: &mut [u16],
    point: u16,
)
    requires { (point_table.now ≡ the_point_table) × (dart point 3 < mark) × (dart point 3 < length before.now) ×
        (dart point 3 < length next.old) }
    ensures { links next.new other.new ≡ smooth (links next.old other.old) point }
{
    let left = present::mask(next, point);
    if !ends::two(point_table, present::mask(before, point), left) {
        return;
    }
    let seen = ends::seen(left, point);
    smooth_edge(next, other, seen.first, seen.last);
}

// Step 3: the points that two darts of two different edges alone leave go, one after another. Before has entries for the
// lines before the join. The points visited are those of the darts of a list; at every other point there is nothing to do.
pub fn smooth(
    size: Size,
    first: u16,
    list: &[u16],
    point_table: &[u16; 256],
    before: &[u16],
    next: &mut [u16],
    other: &mut [u16],
)
    requires { (point_table.now ≡ the_point_table) × (length list.now ≡ slots size.width size.height) ×
        (length before.now ≡ slots size.width size.height) × (length next.old ≡ slots size.width size.height) ×
        Visited smooths smooth (links next.old other.old) (slots size.width size.height) first list.now }
    ensures { links next.new other.new ≡
        smoothed size.width size.height (links next.old other.old) }
{
    let n = dart::slots(size);
    let mut dart = first;
    while dart < n {
        smooth_point(
            point_table,
            before,
            next,
            other,
            Dart { number: dart }.point(),
        );
        dart = list[dart as usize];
    }
}
