ghost use Rattle.std.specs.Prelude.{◌≡◌, cond, ◌&&◌, [], ◌∷◌, ◌<◌, eqb, length, set, replicate};
ghost use Rattle.laws.specs.Equal.{equal};
ghost use Rattle.point_darts.specs.Dart.{mark, dart};
ghost use Rattle.paper.specs.Joining.{at};
ghost use Rattle.paper.specs.Refusal.{cleared};
ghost use Rattle.table_entries.specs.Pointed.{four_at};
ghost use Rattle.table_entries.specs.Trim.{trimmed};

use point_darts::dart;

// The entry of a table at a place, the mark past its end.
pub fn get(table: &[u16], place: u16) -> u16
    ensures { result ≡ at table.now place }
{
    let i = place as usize;
    if i < table.len() {
        table[i]
    } else {
        dart::MARK
    }
}

// Sets the entry of a table at a place; past its end nothing changes.
pub fn put(table: &mut [u16], place: u16, value: u16)
    ensures { table.new ≡ set table.old place value }
{
    let i = place as usize;
    if i < table.len() {
        table[i] = value;
    }
}

// Sets two entries, one after the other.
pub fn put_pair(table: &mut [u16], d: u16, value: u16, e: u16, other: u16)
    ensures { table.new ≡ set (set table.old d value) e other }
{
    put(table, d, value);
    put(table, e, other);
}

// Sets the entries of the four darts that leave a point.
pub fn put_four(table: &mut [u16], point: u16, east: u16, south: u16, west: u16, north: u16)
    requires { dart point 3 < length table.old }
    ensures { table.new ≡ four_at table.old point east south west north }
{
    let i = dart::first_slot(point);
    table[i] = east;
    table[i + 1] = south;
    table[i + 2] = west;
    table[i + 3] = north;
}

// Sets every entry of a table to one value.
pub fn fill(table: &mut [u16], each: u16)
    ensures { table.new ≡ replicate (length table.old) each }
{
    table.fill(each);
}

// Sets every entry of a table to 0.
pub fn clear(table: &mut [u16])
    ensures { table.new ≡ replicate (length table.old) 0 }
{
    fill(table, 0);
}

// Sets every entry of four tables to 0.
pub fn clear_four(a: &mut [u16], b: &mut [u16], c: &mut [u16], d: &mut [u16])
    ensures { (a.new ∷ b.new ∷ c.new ∷ d.new ∷ []) ≡
        cleared (a.old ∷ b.old ∷ c.old ∷ d.old ∷ []) }
{
    clear(a);
    clear(b);
    clear(c);
    clear(d);
}

// Whether two tables have the same entries. Every entry is compared, so that the compiler takes many at a time.
pub fn same(left: &[u16], right: &[u16]) -> bool
    ensures { result ≡ equal left.now right.now }
{
    let n = left.len();
    if right.len() != n {
        return false;
    }
    let mut agree = true;
    for i in 0..n {
        agree = agree & (left[i] == right[i]);
    }
    agree
}

// Whether two pairs of tables have the same entries.
pub fn both_same(s: &[u16], t: &[u16], u: &[u16], v: &[u16]) -> bool
    ensures { result ≡ (equal s.now t.now && equal u.now v.now) }
{
    if same(s, t) {
        return same(u, v);
    }
    false
}

// A value; the mark where what was found is the number that stands for none.
pub fn mark_where(found: u16, none: u16, value: u16) -> u16
    ensures { result ≡ cond (eqb found none) mark value }
{
    if found == none { dart::MARK } else { value }
}

// The entries of a table for the darts that have links; the mark for the others.
pub fn trim(links: &[u16], table: &mut [u16])
    requires { length links.now ≡ length table.old }
    ensures { table.new ≡ trimmed links.now table.old }
{
    for i in 0..table.len() {
        table[i] = mark_where(links[i], dart::MARK, table[i]);
    }
}
