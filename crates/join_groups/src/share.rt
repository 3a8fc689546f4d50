// Whether two groups share a line: through the darts of one of them.
ghost use Rattle.std.specs.Prelude.{◌≡◌, true, false, List, ℕ, ◌+◌, ◌*◌, ◌≤◌, length};
ghost use Rattle.laws.specs.First.{first_failed};
ghost use Rattle.point_darts.specs.Dart.{mark};
ghost use Rattle.paper.specs.Drawing.{Tables};
ghost use Rattle.paper.specs.Refusal.{name_tests, adjoin};
ghost use Rattle.table_forest.specs.Forest.{Forest, Grown};
ghost use Rattle.join_groups.specs.Group.{group_of, Met, Unmet, Walkable, Standing};

use point_darts::dart;
use point_darts::dart::Dart;
use table_entries::entry;
use table_forest::nodes;

// The name of the group that the region with this name is of, by the forest of first cells.
fn group_of(groups: &mut [u16], name: u16) -> u16
    requires { Grown (length groups.old) groups.old × (name ≤ length groups.old) }
    ensures { (l : List ℕ) → Forest (length groups.old) l groups.old →
        Forest (length groups.old) l groups.new × (result ≡ group_of l name) }
{
    if name == 0 {
        return 0;
    }
    nodes::find(groups, name - 1) + 1
}

// Whether a dart of a list has the group y on its left hand. The list starts at a dart and ends with the mark.
fn meets(width: u16, side: &[u16], list: &[u16], from: u16, y: u16, groups: &mut [u16]) -> bool
    requires { (length side.now + 4 * (width + 2) ≤ mark) × (length list.now ≤ mark) ×
        Grown (length groups.old) groups.old ×
        Walkable width side.now list.now from (length groups.old) }
    ensures { (l : List ℕ) → Forest (length groups.old) l groups.old →
        Forest (length groups.old) l groups.new ×
        (result ≡ true → Met width side.now l list.now from y) ×
        (result ≡ false → Unmet width side.now l list.now from y (length list.now)) }
{
    let mut dart = from;
    for _ in 0..list.len() {
        if dart == dart::MARK {
            return false;
        }
        let back = Dart { number: dart }.back(width);
        if group_of(groups, entry::get(side, back.number)) == y {
            return true;
        }
        dart = entry::get(list, dart);
    }
    false
}

// Whether the groups a and b share a line: through the darts of the one that has fewer cells.
pub fn share(
    width: u16,
    a: u16,
    b: u16,
    side: &[u16],
    cells: &[u16],
    groups: &mut [u16],
    list: &[u16],
    first: &[u16],
) -> bool
    requires { (first_failed (name_tests cells.now a b) ≡ 0) ×
        ((h : ℕ) × (e : List ℕ) × (u : Tables) ×
        Standing width h side.now cells.now groups.old list.now first.now e u) }
    ensures { (h : ℕ) (e : List ℕ) (u : Tables) →
        Standing width h side.now cells.now groups.old list.now first.now e u →
        Standing width h side.now cells.now groups.new list.now first.now e u ×
        (result ≡ adjoin width h u.side1 a b) }
{
    if entry::get(cells, a) < entry::get(cells, b) {
        return meets(width, side, list, entry::get(first, a), b, groups);
    }
    meets(width, side, list, entry::get(first, b), a, groups)
}
