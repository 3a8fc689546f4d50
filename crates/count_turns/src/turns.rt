// The right turns and the left turns of each dart of level 3, on its run to the next kept point. The points where a run starts
// and ends are left out.
ghost use Rattle.std.specs.Prelude.{◌≡◌, length};
ghost use Rattle.laws.specs.Table.{number};
ghost use Rattle.point_darts.specs.Dart.{slots, point, direction};
ghost use Rattle.point_rules.specs.Turn.{turning, is_right, is_left};
ghost use Rattle.paper.specs.Level.{mask};
ghost use Rattle.paper.specs.Joining.{at, on};
ghost use Rattle.count_turns.specs.Turns.{whole, turns_to, met, turns_at, turn_table, Counted};

use point_darts::dart;
use point_darts::dart::Dart;
use point_rules::turn;
use point_rules::turn::Turn;
use sheet_size::Size;
use table_entries::{entry, present};

// How many right turns and left turns a run takes.
#[derive(Clone, Copy)]
struct Turns {
    right: u16,
    left: u16,
}

// The mask of the lines at a point for which a table of whole points has entries; 0 past its end.
fn lines_at(table: &[u16], point: u16) -> u16
    requires { whole table.now }
    ensures { result ≡ mask (on table.now) point }
{
    if dart::first_slot(point) < table.len() {
        return present::mask(table, point);
    }
    0
}

// The turn that is taken from a dart into the one after it, among the lines at the point between them.
fn turn_into(next: &[u16], dart: u16, after: u16) -> Turn
    requires { whole next.now }
    ensures { result ≡ turning (mask (on next.now) (point after)) (direction dart) }
{
    let lines = lines_at(next, Dart { number: after }.point());
    turn::next_line(lines, Dart { number: dart }.direction()).turn
}

// A turn, counted by its hand: one to the right or one to the left, or none.
fn counted(turn: Turn) -> Turns
    ensures { (result.right ≡ number (is_right turn)) × (result.left ≡ number (is_left turn)) }
{
    match turn {
        Turn::Right => Turns { right: 1, left: 0 },
        Turn::Straight => Turns { right: 0, left: 0 },
        Turn::Left => Turns { right: 0, left: 1 },
        Turn::Back => Turns { right: 0, left: 0 },
        Turn::None => Turns { right: 0, left: 0 },
    }
}

// The turns that are taken from a dart on along next, before the step to the dart at the end, at most so many steps.
fn run(steps: u16, next: &[u16], start: u16, end: u16) -> Turns
    requires { whole next.now }
    ensures { (result.right ≡ turns_to steps next.now end is_right start) ×
        (result.left ≡ turns_to steps next.now end is_left start) }
{
    let mut right: u16 = 0;
    let mut left: u16 = 0;
    let mut dart = start;
    let mut after = entry::get(next, start);
    for _ in 0..steps {
        if after == end {
            return Turns { right, left };
        }
        let one = counted(turn_into(next, dart, after));
        right += one.right;
        left += one.left;
        dart = after;
        after = entry::get(next, after);
    }
    Turns { right, left }
}

// Whether the other of a dart comes before it, and the dart is the other of that.
fn is_met(other3: &[u16], other: u16, d: u16) -> bool
    requires { other ≡ at other3.now d }
    ensures { result ≡ met other3.now d }
{
    if other < d {
        return entry::get(other3, other) == d;
    }
    false
}

// The turns of a dart, where those of the darts before it are counted: those of its run to its next of level 3, at most so many
// steps, or those of the run back, exchanged, where its other was met. The mark twice where it has no next of level 3.
fn turns_at(
    steps: u16,
    next1: &[u16],
    next3: &[u16],
    other3: &[u16],
    right: &[u16],
    left: &[u16],
    d: u16,
) -> Turns
    requires { Counted steps next1.now next3.now other3.now d right.now left.now }
    ensures { (result.right ≡ turns_at steps next1.now next3.now other3.now is_right is_left d) ×
        (result.left ≡ turns_at steps next1.now next3.now other3.now is_left is_right d) }
{
    let end = entry::get(next3, d);
    if end == dart::MARK {
        return Turns {
            right: dart::MARK,
            left: dart::MARK,
        };
    }
    let other = entry::get(other3, d);
    if is_met(other3, other, d) {
        return Turns {
            right: left[other as usize],
            left: right[other as usize],
        };
    }
    run(steps, next1, d, end)
}

// The right turns and the left turns of every dart of level 3; the mark at every other slot. A run is gone once, from the end
// that is met first, so every line is passed once.
pub fn all_turns(
    size: Size,
    next1: &[u16],
    next3: &[u16],
    other3: &[u16],
    right: &mut [u16],
    left: &mut [u16],
)
    requires { (length next1.now ≡ slots size.width size.height) ×
        (length right.old ≡ slots size.width size.height) × (length left.old ≡ slots size.width size.height) }
    ensures { (right.new ≡
        turn_table size.width size.height next1.now next3.now other3.now is_right is_left) ×
        (left.new ≡
        turn_table size.width size.height next1.now next3.now other3.now is_left is_right) }
{
    let n = dart::slots(size);
    for d in 0..n {
        let turns = turns_at(n, next1, next3, other3, right, left, d);
        right[d as usize] = turns.right;
        left[d as usize] = turns.left;
    }
}
