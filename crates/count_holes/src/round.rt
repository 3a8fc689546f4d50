// The region round each piece of lines. A piece is met at its least point.
ghost use Rattle.std.specs.Prelude.{◌≡◌, ◌+◌, ◌<◌, ◌≤◌, length};
ghost use Rattle.laws.specs.Table.{table};
ghost use Rattle.point_darts.specs.Dart.{mark, dart};
ghost use Rattle.count_holes.specs.Round.{round_at, pieces, Sized};

use point_darts::dart;
use point_darts::dart::Dart;
use table_entries::entry;

// The region round the piece of which a point is the least, the mark where it is the least of none. The dart that leads back
// to the point from the east has that region on its right hand. Its side is read either way and the mark chosen last, since
// which points are least is hard to foresee.
fn round_at(side: &[u16], tops: &[u16], p: u16) -> u16
    requires { (dart (p + 1) 3 < length side.now) × (length side.now < mark) × (p < length tops.now) }
    ensures { result ≡ round_at side.now tops.now p }
{
    let round = side[dart::first_slot(p + 1) + Dart::WEST as usize];
    if tops[p as usize] == p {
        round
    } else {
        dart::MARK
    }
}

// How many pieces the region of a name lies round. No line leads east from the last point.
pub fn pieces_of(side: &[u16], tops: &[u16], name: u16) -> u16
    requires { Sized side.now tops.now × (name < mark) }
    ensures { result ≡ pieces side.now tops.now name }
{
    let last = (tops.len() - 1) as u16;
    let mut count: u16 = 0;
    for p in 0..last {
        let round = round_at(side, tops, p);
        let one: u16 = if round == name { 1 } else { 0 };
        count += one;
    }
    count
}

// How many pieces each region lies round, by name.
pub fn all_pieces(side: &[u16], tops: &[u16], tally: &mut [u16])
    requires { Sized side.now tops.now × (length tally.old ≤ mark) }
    ensures { tally.new ≡ table (length tally.old) (pieces side.now tops.now) }
{
    entry::clear(tally);
    let n = tally.len();
    let last = (tops.len() - 1) as u16;
    for p in 0..last {
        let round = round_at(side, tops, p) as usize;
        if round < n {
            tally[round] += 1;
        }
    }
}
