ghost use Rattle.std.specs.Prelude.{◌≡◌, cond, ◌&&◌, ◌≤◌, ◌<◌, length};
ghost use Rattle.laws.specs.Table.{table, count};
ghost use Rattle.point_darts.specs.Dart.{mark, slots, reversal};
ghost use Rattle.paper.specs.Joining.{at, shared, removed};
ghost use Rattle.join_darts.specs.Links.{links};
ghost use Rattle.join_darts.specs.Listed.{bounds, Listed, Chained, Bounded};
ghost use Rattle.join_shared.specs.Led.{led};
ghost use Rattle.join_shared.specs.Mapped.{Mapped, Bare};

use crate::chase;
use join_darts::back;
use sheet_size::Size;

// The next of every dart, past the darts with the sides a and b, which keep theirs.
fn lead(side: &[u16], other: &[u16], a: u16, b: u16, first: u16, list: &[u16], next: &mut [u16])
    requires { (a < mark) × (b < mark) × (length next.old ≤ mark) × (length side.now ≡ length next.old) ×
        (length list.now ≡ length next.old) ×
        Bounded side.now next.old a b (length next.old) first list.now ×
        Mapped side.now next.old other.now }
    ensures { next.new ≡
        table (length next.old)
        (led side.now (links next.old other.now) a b) }
{
    let n = next.len() as u16;
    let mut dart = first;
    while dart < n {
        next[dart as usize] = chase::led(side, other, a, b, next, dart);
        dart = list[dart as usize];
    }
}

// The darts with the sides a and b have no next any more. It answers how many darts of the list these are.
fn unlink(
    side: &[u16],
    other: &[u16],
    a: u16,
    b: u16,
    first: u16,
    list: &[u16],
    next: &mut [u16],
) -> u16
    requires { (length next.old ≤ mark) × (length side.now ≡ length next.old) ×
        (length list.now ≡ length next.old) ×
        Bounded side.now next.old a b (length next.old) first list.now }
    ensures { (next.new ≡
        table (length next.old)
        (λ d. cond (shared side.now (at other.now) a b d) mark (at next.old d))) ×
        ((g : Chained (length next.old) first list.now) →
        result ≡
        count (length next.old)
        (λ d. g.test d && shared side.now (at other.now) a b d)) }
{
    let n = next.len() as u16;
    let mut gone: u16 = 0;
    let mut dart = first;
    while dart < n {
        let shared = chase::is_shared(side, other, a, b, dart);
        next[dart as usize] = chase::link_left(shared, next[dart as usize]);
        gone += shared as u16;
        dart = list[dart as usize];
    }
    gone
}

// The darts with the sides a and b have no other any more.
fn unpair(side: &[u16], a: u16, b: u16, first: u16, list: &[u16], other: &mut [u16])
    requires { (length other.old ≤ mark) × (length side.now ≡ length other.old) ×
        (length list.now ≡ length other.old) ×
        Bounded side.now other.old a b (length other.old) first list.now }
    ensures { other.new ≡
        table (length other.old)
        (λ d. cond (shared side.now (at other.old) a b d) mark (at other.old d)) }
{
    let n = other.len() as u16;
    let mut dart = first;
    while dart < n {
        let shared = chase::is_shared(side, other, a, b, dart);
        other[dart as usize] = chase::link_left(shared, other[dart as usize]);
        dart = list[dart as usize];
    }
}

// Step 1, the next: the darts with the sides a and b have none any more, and the others' next leads past them. It answers how
// many darts of the list these are.
fn remove_nexts(
    width: u16,
    height: u16,
    side: &[u16],
    other: &[u16],
    a: u16,
    b: u16,
    first: u16,
    list: &[u16],
    next: &mut [u16],
) -> u16
    requires { (slots width height ≤ mark) × (a < mark) × (b < mark) × (length side.now ≡ slots width height) ×
        (length list.now ≡ slots width height) × (length next.old ≡ slots width height) ×
        Bounded side.now next.old a b (slots width height) first list.now ×
        Mapped side.now next.old other.now }
    ensures { (next.new ≡
        (removed width height (links next.old other.now)
        (shared side.now (at other.now) a b)
        ).next) ×
        ((g : Chained (slots width height) first list.now) →
        result ≡ count (slots width height) (λ d. g.test d && shared side.now (at other.now) a b d)) }
{
    lead(side, other, a, b, first, list, next);
    unlink(side, other, a, b, first, list, next)
}

// Step 1 at any level: the darts with the sides a and b go. The list has the darts with side a or b that have a next. Width and
// height need not be a size: they only say how many slots there are.
pub fn remove_shared(
    width: u16,
    height: u16,
    side: &[u16],
    a: u16,
    b: u16,
    first: u16,
    list: &[u16],
    next: &mut [u16],
    other: &mut [u16],
)
    requires { (slots width height ≤ mark) × (a < mark) × (b < mark) × (length side.now ≡ slots width height) ×
        (length list.now ≡ slots width height) × (length next.old ≡ slots width height) ×
        (length other.old ≡ slots width height) ×
        Bounded side.now next.old a b (slots width height) first list.now ×
        Mapped side.now next.old other.old × Bare next.old other.old }
    ensures { links next.new other.new ≡
        removed width height (links next.old other.old)
        (shared side.now (at other.old) a b) }
{
    remove_nexts(width, height, side, other, a, b, first, list, next);
    unpair(side, a, b, first, list, other);
}

// Step 1 at level 1, where the other of a dart is its reversal. It answers how many darts went. The list has the darts with side
// a or b. Back is work: it is left with the reversals.
pub fn remove_plain_shared(
    size: Size,
    side: &[u16],
    a: u16,
    b: u16,
    first: u16,
    list: &[u16],
    next: &mut [u16],
    back: &mut [u16],
) -> u16
    requires { (a < mark) × (b < mark) × (length side.now ≡ slots size.width size.height) ×
        (length list.now ≡ slots size.width size.height) × (length next.old ≡ slots size.width size.height) ×
        (length back.old ≡ slots size.width size.height) ×
        Listed (bounds side.now a b) (slots size.width size.height) first list.now ×
        Mapped side.now next.old (table (slots size.width size.height) (reversal size.width)) }
    ensures { (next.new ≡
        (removed size.width size.height (links next.old (table (slots size.width size.height) (reversal size.width)))
        (shared side.now (at (table (slots size.width size.height) (reversal size.width))) a b)
        ).next) ×
        (result ≡ count (slots size.width size.height) (shared side.now (reversal size.width) a b)) }
{
    back::fill_reversals(size, back);
    remove_nexts(size.width, size.height, side, back, a, b, first, list, next)
}
