// The lines present at a point: those for which a table by dart has entries.
ghost use Rattle.std.specs.Prelude.{◌≡◌, not, List, ℕ, ◌+◌, ◌*◌, ◌≤◌, ◌<◌, eqb, length};
ghost use Rattle.laws.specs.Table.{number};
ghost use Rattle.point_darts.specs.Dart.{mark, dart};
ghost use Rattle.paper.specs.Level.{mask};
ghost use Rattle.paper.specs.Joining.{at, on};

use point_darts::dart;

// A weight where what was found is not the mark, else 0.
fn where_on(found: u16, weight: u16) -> u16
    ensures { (result ≡ weight * number (not (eqb found mark))) × (result ≤ weight) }
{
    if found == dart::MARK {
        return 0;
    }
    weight
}

// The mask of a point's lines from what a table has for its four darts.
fn mask_of(east: u16, south: u16, west: u16, north: u16) -> u16
    ensures { (t : List ℕ) (p : ℕ) → east ≡ at t (dart p 0) → south ≡ at t (dart p 1) → west ≡ at t (dart p 2) →
        north ≡ at t (dart p 3) → (result ≡ mask (on t) p) × (result < 16) }
{
    let e = where_on(east, 1);
    let s = where_on(south, 2);
    let w = where_on(west, 4);
    let n = where_on(north, 8);
    e + s + w + n
}

// The mask of the lines at a point for which a table has entries.
pub fn mask(table: &[u16], point: u16) -> u16
    requires { (dart point 3 < mark) × (dart point 3 < length table.now) }
    ensures { (result ≡ mask (on table.now) point) × (result < 16) }
{
    let i = dart::first_slot(point);
    mask_of(table[i], table[i + 1], table[i + 2], table[i + 3])
}
