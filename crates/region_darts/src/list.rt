ghost use Rattle.std.specs.Prelude.{◌≡◌, true, cond, List, ℕ, ◌≤◌, ◌<◌, eqb, length, set};
ghost use Rattle.laws.specs.Least.{lower};
ghost use Rattle.point_darts.specs.Dart.{mark};
ghost use Rattle.paper.specs.Joining.{at, on};
ghost use Rattle.region_darts.specs.Lists.{Of, Lists};

use point_darts::dart;
use table_entries::entry;

// Puts a dart before the list of its region: it leads to the dart that was first.
fn put_first(dart: u16, name: u16, list: &mut [u16], first: &mut [u16], last: &mut [u16])
    ensures { (list.new ≡ set list.old dart (at first.old name)) ×
        (first.new ≡ set first.old name dart) ×
        (last.new ≡
        cond (eqb (at first.old name) mark) (set last.old name dart) last.old) }
{
    let after = entry::get(first, name);
    entry::put(list, dart, after);
    entry::put(first, name, dart);
    if after == dart::MARK {
        entry::put(last, name, dart);
    }
}

// Lists the darts of each region by their sides: the darts of one side follow each other, the mark after the last. First and last
// have the two ends by name.
pub fn list_sides(side: &[u16], list: &mut [u16], first: &mut [u16], last: &mut [u16])
    requires { (length side.now ≡ length list.old) × (length list.old ≤ mark) × (length first.old ≡ length last.old) ×
        ((d : ℕ) → on side.now d ≡ true → at side.now d < length first.old) }
    ensures { Lists side.now (λ v. v) list.new first.new last.new }
{
    entry::fill(list, dart::MARK);
    entry::fill(first, dart::MARK);
    for i in (0..side.len()).rev() {
        let name = side[i];
        if name != dart::MARK {
            put_first(i as u16, name, list, first, last);
        }
    }
}

// The list of one region follows that of another, which keeps its name.
pub fn link_lists(low: u16, high: u16, list: &mut [u16], first: &[u16], last: &mut [u16])
    requires { low < high }
    ensures { (s : List ℕ) (g : ℕ → ℕ) (d e : ℕ) → length s ≡ length list.old → low < length last.old →
        length s ≤ mark → Of s g low d → Of s g high e →
        Lists s g list.old first.now last.old →
        Lists s (λ v. lower low high (g v)) list.new first.now last.new }
{
    entry::put(list, entry::get(last, low), entry::get(first, high));
    entry::put(last, low, entry::get(last, high));
}
