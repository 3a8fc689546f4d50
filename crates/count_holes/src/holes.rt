// The holes of a region of a drawing: the pieces that it lies round.
ghost use Rattle.std.specs.Prelude.{◌≡◌, ◌<◌, ◌≤◌, length, replicate};
ghost use Rattle.laws.specs.Table.{table};
ghost use Rattle.point_darts.specs.Dart.{mark, points, slots};
ghost use Rattle.paper.specs.Level.{tops};
ghost use Rattle.paper.specs.Joining.{on};
ghost use Rattle.region_depths.specs.Census.{counts};
ghost use Rattle.count_holes.specs.Round.{pieces};

use crate::round;
use level_pieces::points;
use point_darts::dart;
use sheet_size::Size;
use table_entries::entry;

// How many pieces the region of a name lies round, by the sides of level 1. The tops of the pieces are left in top.
fn find(size: Size, side: &[u16], name: u16, top: &mut [u16]) -> u16
    requires { (length side.now ≡ slots size.width size.height) ×
        (length top.old ≡ points size.width size.height) × (name < mark) }
    ensures { (result ≡ pieces side.now (tops size.width size.height (on side.now)) name) ×
        (top.new ≡ tops size.width size.height (on side.now)) }
{
    points::top_points(size, side, top);
    round::pieces_of(side, top, name)
}

// How many pieces each region lies round, by name and by the sides of level 1. The tops of the pieces are left in top.
fn find_all(size: Size, side: &[u16], tally: &mut [u16], top: &mut [u16])
    requires { (length side.now ≡ slots size.width size.height) ×
        (length tally.old ≤ mark) × (length top.old ≡ points size.width size.height) }
    ensures { (tally.new ≡
        table (length tally.old) (pieces side.now (tops size.width size.height (on side.now)))) ×
        (top.new ≡ tops size.width size.height (on side.now)) }
{
    points::top_points(size, side, top);
    round::all_pieces(side, top, tally);
}

// How many pieces the region of a name lies round, by the sides of level 1. The work table is left with every entry 0.
pub fn holes(size: Size, side: &[u16], name: u16, work: &mut [u16]) -> u16
    requires { (length side.now ≡ slots size.width size.height) ×
        (length work.old ≡ slots size.width size.height) × (name < mark) }
    ensures { (result ≡ pieces side.now (tops size.width size.height (on side.now)) name) ×
        (work.new ≡ replicate (length work.old) 0) }
{
    let n = dart::points(size) as usize;
    let count = find(size, side, name, &mut work[..n]);
    entry::clear(work);
    count
}

// The same of every name at once: of the outside and of each name in use, by the parents; the mark for any other name.
pub fn all_holes(size: Size, side: &[u16], parent: &[u16], tally: &mut [u16], work: &mut [u16])
    requires { (length side.now ≡ slots size.width size.height) ×
        (length work.old ≡ slots size.width size.height) × (0 < length parent.now) × (length parent.now ≤ mark) ×
        (length tally.old ≡ length parent.now) }
    ensures { (tally.new ≡
        counts (λ _. pieces side.now (tops size.width size.height (on side.now))) parent.now) ×
        (work.new ≡ replicate (length work.old) 0) }
{
    let n = dart::points(size) as usize;
    find_all(size, side, tally, &mut work[..n]);
    entry::clear(work);
    let outside = tally[0];
    entry::trim(parent, tally);
    tally[0] = outside;
}
