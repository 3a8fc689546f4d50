ghost use Rattle.std.specs.Prelude.{◌≡◌, ◌<◌, length};
ghost use Rattle.point_darts.specs.Dart.{mark, points, slots, dart};
ghost use Rattle.point_rules.specs.Turn.{point_table as the_point_table};
ghost use Rattle.paper.specs.Joining.{on, moved, close, closes};
ghost use Rattle.join_darts.specs.Links.{links};
ghost use Rattle.join_darts.specs.Visited.{Visited};
ghost use Rattle.region_parents.specs.Tops.{Rising};

use join_darts::ends;
use point_darts::dart;
use point_darts::dart::Dart;
use sheet_size::Size;
use table_entries::{entry, present};

// Darts u and v give way to darts e and f, each its own next and each the other of the other.
fn move_loop(next: &mut [u16], other: &mut [u16], u: u16, v: u16, e: u16, f: u16)
    ensures { links next.new other.new ≡ moved (links next.old other.old) u v e f }
{
    entry::put_pair(next, u, dart::MARK, v, dart::MARK);
    entry::put_pair(next, e, e, f, f);
    entry::put_pair(other, u, dart::MARK, v, dart::MARK);
    entry::put_pair(other, e, f, f, e);
}

// A loop's point that has only two lines left gives way to the top of its piece. Before has entries for the lines before
// the join, lines for those that remain.
fn close_point(
    point_table: &[u16; 256],
    before: &[u16],
    lines: &[u16],
    tops: &[u16],
    next: &mut [u16],
    other: &mut [u16],
    point: u16,
)
    requires { (point_table.now ≡ the_point_table) × (dart point 3 < mark) × (dart point 3 < length before.now) ×
        (dart point 3 < length lines.now) × (dart point 3 < length next.old) × (point < length tops.now) ×
        Rising tops.now }
    ensures { links next.new other.new ≡
        close (on lines.now) tops.now (links next.old other.old) point }
{
    let curves = present::mask(next, point);
    if !ends::two(point_table, curves, curves) {
        return;
    }
    let seen = ends::seen(curves, point);
    let u = seen.first;
    let v = seen.last;
    let x = entry::get(other, u);
    if x != v {
        return;
    }
    let left = present::mask(lines, point);
    if !ends::two(point_table, present::mask(before, point), left) {
        return;
    }
    let top = tops[point as usize];
    let anchor = ends::seen(present::mask(lines, top), top);
    move_loop(next, other, u, v, anchor.first, anchor.last);
}

// Step 4: the darts of each closed curve move to its anchor. Before has entries for the lines before the join, lines for
// those that remain, tops the tops of their pieces. The points visited are those of the darts of a list; at every other
// point there is nothing to do.
pub fn close(
    size: Size,
    first: u16,
    list: &[u16],
    point_table: &[u16; 256],
    before: &[u16],
    lines: &[u16],
    tops: &[u16],
    next: &mut [u16],
    other: &mut [u16],
)
    requires { (point_table.now ≡ the_point_table) × (length list.now ≡ slots size.width size.height) ×
        (length before.now ≡ slots size.width size.height) × (length lines.now ≡ slots size.width size.height) ×
        (length next.old ≡ slots size.width size.height) × (length tops.now ≡ points size.width size.height) × Rising tops.now ×
        Visited (closes (on lines.now) tops.now) (close (on lines.now) tops.now) (links next.old other.old)
        (slots size.width size.height)
        first
        list.now }
    ensures { links next.new other.new ≡
        closes (on lines.now) tops.now (points size.width size.height) 0
        (links next.old other.old) }
{
    let n = dart::slots(size);
    let mut dart = first;
    while dart < n {
        close_point(
            point_table,
            before,
            lines,
            tops,
            next,
            other,
            Dart { number: dart }.point(),
        );
        dart = list[dart as usize];
    }
}
