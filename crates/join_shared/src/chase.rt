// Step 1 of the removal rule, for one dart: whether two regions share its line, and its next past such darts.
ghost use Rattle.std.specs.Prelude.{◌≡◌, cond};
ghost use Rattle.point_darts.specs.Dart.{mark};
ghost use Rattle.paper.specs.Joining.{at, shared, chase};
ghost use Rattle.join_darts.specs.Links.{links};
ghost use Rattle.join_shared.specs.Led.{leaping, led};

use point_darts::dart;
use table_entries::entry;

// Whether a dart has the sides a and b. Both sides are read and both ways compared, since which of the two regions a dart
// bounds is hard to foresee.
pub fn is_shared(side: &[u16], other: &[u16], a: u16, b: u16, dart: u16) -> bool
    ensures { result ≡ shared side.now (at other.now) a b dart }
{
    let right = entry::get(side, dart);
    let left = entry::get(side, entry::get(other, dart));
    (right == a) & (left == b) | (right == b) & (left == a)
}

// Where a chase goes on from a dart: from one with the sides a and b to the next of its other, from any other nowhere.
fn goes_on(side: &[u16], other: &[u16], a: u16, b: u16, next: &[u16], dart: u16) -> u16
    ensures { result ≡
        leaping (links next.now other.now)
        (shared side.now (at other.now) a b) dart }
{
    if is_shared(side, other, a, b, dart) {
        return entry::get(next, entry::get(other, dart));
    }
    dart
}

// The first dart that remains, from a dart on: no point has more than four darts.
fn chase(side: &[u16], other: &[u16], a: u16, b: u16, next: &[u16], dart: u16) -> u16
    ensures { result ≡
        chase (links next.now other.now)
        (shared side.now (at other.now) a b) dart }
{
    let second = goes_on(side, other, a, b, next, dart);
    if second == dart {
        return dart;
    }
    let third = goes_on(side, other, a, b, next, second);
    let fourth = goes_on(side, other, a, b, next, third);
    goes_on(side, other, a, b, next, fourth)
}

// The next of a dart, past the darts with the sides a and b; a dart with these sides keeps its next.
pub fn led(side: &[u16], other: &[u16], a: u16, b: u16, next: &[u16], dart: u16) -> u16
    ensures { result ≡ led side.now (links next.now other.now) a b dart }
{
    let after = entry::get(next, dart);
    if is_shared(side, other, a, b, dart) {
        return after;
    }
    chase(side, other, a, b, next, after)
}

// The link that a dart is left with: the mark where the dart goes.
pub fn link_left(gone: bool, link: u16) -> u16
    ensures { result ≡ cond gone mark link }
{
    if gone {
        return dart::MARK;
    }
    link
}
