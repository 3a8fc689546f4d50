ghost use Rattle.std.specs.Prelude.{◌≡◌, true, false, ◌+◌, ◌*◌, ◌≤◌, ◌<◌, eqb, length};
ghost use Rattle.point_darts.specs.Dart.{mark, slots, reversal};
ghost use Rattle.paper.specs.Joining.{at, shared};
ghost use Rattle.paper.specs.Refusal.{adjoin};
ghost use Rattle.join_darts.specs.Listed.{Gap, Met};

use join_darts::list;
use point_darts::dart::Dart;
use sheet_size::Size;
use table_entries::entry;

// Whether the side on a dart's left hand, that of its reversal, has a name.
fn is_left(width: u16, side: &[u16], name: u16, dart: u16) -> bool
    requires { dart + 4 * (width + 2) < mark }
    ensures { result ≡ eqb (at side.now (reversal width dart)) name }
{
    entry::get(side, Dart { number: dart }.back(width).number) == name
}

// Whether a dart has the sides a and b.
#[tactic(auto, unfolding(paper::specs::Joining::shared, paper::specs::Joining::between))]
fn is_between(width: u16, side: &[u16], a: u16, b: u16, dart: u16) -> bool
    requires { dart + 4 * (width + 2) < mark }
    ensures { result ≡ shared side.now (reversal width) a b dart }
{
    let right = entry::get(side, dart);
    if right == a {
        return is_left(width, side, b, dart);
    }
    if right != b {
        return false;
    }
    is_left(width, side, a, dart)
}

// Whether some dart from low up to high has the sides a and b.
#[tactic(auto, unfolding(point_darts::specs::Dart::mark))]
fn adjoin_part(width: u16, side: &[u16], a: u16, b: u16, low: usize, high: usize) -> bool
    requires { (low ≤ high) × (high + 4 * (width + 2) ≤ mark) }
    ensures { (result ≡ true → Met (shared side.now (reversal width) a b) low high) ×
        (result ≡ false → Gap (shared side.now (reversal width) a b) low high) }
{
    for i in low..high {
        if is_between(width, side, a, b, i as u16) {
            return true;
        }
    }
    false
}

// Whether the regions a and b share a line: some dart has the one on its right hand and the other on its left. Most parts of
// the table have no dart of the two. It goes from one part's start to the next, as list_darts does.
pub fn adjoin(size: Size, side: &[u16], a: u16, b: u16) -> bool
    requires { length side.now ≡ slots size.width size.height }
    ensures { result ≡ adjoin size.width size.height side.now a b }
{
    let mut high = side.len();
    while 0 < high {
        let low = list::part_start(high);
        if !list::is_free(side, a, b, low, high) {
            if adjoin_part(size.width, side, a, b, low, high) {
                return true;
            }
        }
        high = low;
    }
    false
}
