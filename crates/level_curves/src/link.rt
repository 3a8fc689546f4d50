ghost use Rattle.std.specs.Prelude.{◌≡◌, true, ℕ, ◌+◌, ◌*◌, ◌<◌, length};
ghost use Rattle.point_darts.specs.Dart.{points, slots, dart, point, direction, turned};
ghost use Rattle.paper.specs.Joining.{at, on};
ghost use Rattle.level_curves.specs.Link.{kept_at, starts, last_of, along_next, along_other, TwoWay, Linking};

use point_darts::dart;
use point_darts::dart::Dart;
use sheet_size::Size;
use table_entries::entry;

// The last dart of a run, and the dart after it.
#[derive(Clone, Copy)]
struct Run {
    dart: u16,
    after: u16,
}

// Runs from a dart of level 1 along next until the dart after leaves a kept point, at most so many steps.
fn last(steps: u16, next: &[u16], kept: &[u16], start: u16) -> Run
    requires { ((d : ℕ) → on next.now d ≡ true → on next.now (at next.now d) ≡ true) ×
        (4 * length kept.now ≡ length next.now) × (on next.now start ≡ true) }
    ensures { (result.dart ≡ last_of steps next.now kept.now start) ×
        (result.after ≡ at next.now result.dart) }
{
    let mut dart = start;
    let mut after = next[start as usize];
    for _ in 0..steps {
        if kept[Dart { number: after }.point() as usize] == 1 {
            return Run { dart, after };
        }
        let past = next[after as usize];
        dart = after;
        after = past;
    }
    Run { dart, after }
}

// The reversal of a dart, which leads to the point that the dart after it leaves.
fn reversal(last: u16, after: u16) -> u16
    ensures { result ≡ dart (point after) (turned (direction last) 2) }
{
    let far = Dart { number: after }.point();
    let direction = Dart { number: last }.direction();
    Dart::leaving(far, dart::opposite(direction)).number
}

// Links a dart that starts a run, and the dart at the other end of that run, which is the same run back. Nothing is to be
// done where the run was gone from its other end.
fn link_run(
    width: u16,
    steps: u16,
    next1: &[u16],
    kept: &[u16],
    next: &mut [u16],
    other: &mut [u16],
    d: u16,
)
    requires { Linking width steps next1.now kept.now d next.old other.old × (d < steps) ×
        (starts next1.now kept.now d ≡ true) }
    ensures { Linking width steps next1.now kept.now (d + 1) next.new other.new }
{
    let i = d as usize;
    if other[i] != dart::MARK {
        return;
    }
    let last = last(steps, next1, kept, d);
    let end = reversal(last.dart, last.after);
    let back = entry::get(next1, Dart { number: d }.back(width).number);
    next[i] = last.after;
    other[i] = end;
    next[end as usize] = back;
    other[end as usize] = d;
}

// Links a dart that leaves a kept point: at once where it leads to one.
fn link_dart(
    width: u16,
    steps: u16,
    next1: &[u16],
    kept: &[u16],
    next: &mut [u16],
    other: &mut [u16],
    d: u16,
)
    requires { Linking width steps next1.now kept.now d next.old other.old × (d < steps) ×
        (kept_at kept.now (point d) ≡ true) }
    ensures { Linking width steps next1.now kept.now (d + 1) next.new other.new }
{
    let i = d as usize;
    let after = next1[i];
    if after == dart::MARK {
        return;
    }
    if kept[Dart { number: after }.point() as usize] == 1 {
        next[i] = after;
        other[i] = reversal(d, after);
        return;
    }
    link_run(width, steps, next1, kept, next, other, d);
}

// Links the four darts that leave a point, if it is kept. By four calls: with a loop over the directions, the whole of level 3
// takes 2 to 4 in 100 longer.
fn link_point(
    width: u16,
    steps: u16,
    next1: &[u16],
    kept: &[u16],
    next: &mut [u16],
    other: &mut [u16],
    p: u16,
)
    requires { Linking width steps next1.now kept.now (dart p 0) next.old other.old × (p < length kept.now) }
    ensures { Linking width steps next1.now kept.now (dart (p + 1) 0) next.new other.new }
{
    if kept[p as usize] != 1 {
        return;
    }
    link_dart(
        width,
        steps,
        next1,
        kept,
        next,
        other,
        Dart::leaving(p, Dart::EAST).number,
    );
    link_dart(
        width,
        steps,
        next1,
        kept,
        next,
        other,
        Dart::leaving(p, Dart::SOUTH).number,
    );
    link_dart(
        width,
        steps,
        next1,
        kept,
        next,
        other,
        Dart::leaving(p, Dart::WEST).number,
    );
    link_dart(
        width,
        steps,
        next1,
        kept,
        next,
        other,
        Dart::leaving(p, Dart::NORTH).number,
    );
}

// The tables of next and other of the level that keeps some points, from level 1 next and the kept points. Each run is gone
// once, for both of its ends.
pub fn links(size: Size, next1: &[u16], kept: &[u16], next: &mut [u16], other: &mut [u16])
    requires { (length next.old ≡ slots size.width size.height) ×
        (length other.old ≡ slots size.width size.height) × (length next1.now ≡ slots size.width size.height) ×
        (length kept.now ≡ points size.width size.height) × TwoWay size.width (slots size.width size.height) next1.now kept.now }
    ensures { (next.new ≡ along_next size.width size.height next1.now kept.now) ×
        (other.new ≡ along_other size.width size.height next1.now kept.now) }
{
    let steps = dart::slots(size);
    let n = dart::points(size);
    entry::fill(next, dart::MARK);
    entry::fill(other, dart::MARK);
    for p in 0..n {
        link_point(size.width, steps, next1, kept, next, other, p);
    }
}
