// Lists of the darts of two regions: the darts listed, and a list narrowed to those that have a next.
ghost use Rattle.std.specs.Prelude.{◌≡◌, true, false, ◌&&◌, ◌||◌, ◌-◌, ◌≤◌, ◌<◌, eqb, length};
ghost use Rattle.point_darts.specs.Dart.{mark};
ghost use Rattle.paper.specs.Joining.{on};
ghost use Rattle.join_darts.specs.Listed.{bounds, part, Gap, Met, First, Listed, Chained, Listing, Walked};

use point_darts::dart;

// Whether a side is a or b.
fn is_either(side: u16, a: u16, b: u16) -> bool
    ensures { result ≡ (eqb side a || eqb side b) }
{
    (side == a) | (side == b)
}

// So many slots are asked at a time whether one is listed.
const PART: usize = 32;

// Where the part that ends before high starts.
pub fn part_start(high: usize) -> usize
    ensures { result ≡ high - part }
{
    if PART < high {
        return high - PART;
    }
    0
}

// Whether no slot from low up to high has side a or b. Every slot is asked, so that the compiler takes many at a time.
pub fn is_free(side: &[u16], a: u16, b: u16, low: usize, high: usize) -> bool
    requires { (low ≤ high) × (high ≤ length side.now) × (length side.now ≤ mark) }
    ensures { (result ≡ true → Gap (bounds side.now a b) low high) ×
        (result ≡ false → Met (bounds side.now a b) low high) }
{
    let mut free = true;
    for i in low..high {
        free = free & (side[i] != a) & (side[i] != b);
    }
    free
}

// Lists the darts with side a or b from low up to high, before a list of those from high on, which starts at after. Every
// slot is led to the list, since which are of it is hard to foresee.
fn list_part(
    side: &[u16],
    a: u16,
    b: u16,
    low: usize,
    high: usize,
    after: u16,
    list: &mut [u16],
) -> u16
    requires { (low ≤ high) × (length side.now ≡ length list.old) × (length list.old ≤ mark) ×
        Listing (bounds side.now a b) (length list.old) high after list.old }
    ensures { Listing (bounds side.now a b) (length list.old) low result list.new }
{
    let mut first = after;
    for i in (low..high).rev() {
        list[i] = first;
        if is_either(side[i], a, b) {
            first = i as u16;
        }
    }
    first
}

// Lists the darts with side a or b: each leads to the one after it, the last to the number of slots. It answers the first,
// the number of slots where there is none. It goes from one part's start to the next; a count of parts would say it less plainly.
pub fn list_darts(side: &[u16], a: u16, b: u16, list: &mut [u16]) -> u16
    requires { (length side.now ≡ length list.old) × (length list.old ≤ mark) }
    ensures { Listed (bounds side.now a b) (length list.old) result list.new }
{
    let mut high = list.len();
    let mut first = high as u16;
    while 0 < high {
        let low = part_start(high);
        if !is_free(side, a, b, low, high) {
            first = list_part(side, a, b, low, high, first, list);
        }
        high = low;
    }
    first
}

// The first dart, from a dart of a list on, that has a next; the number of slots where there is none.
fn reach(next: &[u16], list: &[u16], from: u16) -> u16
    requires { (length list.now ≤ mark) × (length next.now ≡ length list.now) ×
        Walked (length list.now) from list.now }
    ensures { (g : Walked (length list.now) from list.now) →
        First (λ d. g.test d && on next.now d) (length list.now) g.start result }
{
    let n = list.len() as u16;
    let mut dart = from;
    while dart < n {
        if next[dart as usize] != dart::MARK {
            return dart;
        }
        dart = list[dart as usize];
    }
    dart
}

// Leaves in a list the darts that have a next. It answers the first, the number of slots where there is none.
pub fn narrow(next: &[u16], first: u16, list: &mut [u16]) -> u16
    requires { (length list.old ≤ mark) × (length next.now ≡ length list.old) ×
        Chained (length list.old) first list.old }
    ensures { (g : Chained (length list.old) first list.old) →
        Listed (λ d. g.test d && on next.now d) (length list.old) result list.new }
{
    let n = list.len() as u16;
    let start = reach(next, list, first);
    let mut dart = start;
    while dart < n {
        let after = reach(next, list, list[dart as usize]);
        list[dart as usize] = after;
        dart = after;
    }
    start
}
