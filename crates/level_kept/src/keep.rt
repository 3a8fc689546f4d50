ghost use Rattle.std.specs.Prelude.{◌≡◌, ◌||◌, ◌&&◌, not, eqb, length, get_or, set, ◌*◌, ◌-◌, ◌≤◌, ◌<◌};
ghost use Rattle.laws.specs.Table.{table, number};
ghost use Rattle.point_darts.specs.Dart.{points};
ghost use Rattle.point_rules.specs.Turn.{becomes_of};
ghost use Rattle.paper.specs.Joining.{at};
ghost use Rattle.region_parents.specs.Tops.{Rising};
ghost use Rattle.level_kept.specs.Keep.{large, stands, settles, bends, keeps};

use point_darts::dart;
use point_rules::turn;
use sheet_size::Size;
use table_entries::entry;

// 1 for a point with three or four lines, or with a corner; else 0.
fn bend(kinds: &[u16; 16], lines: u16) -> u16
    ensures { result ≡ number (eqb (at kinds.now lines) 3 || eqb (at kinds.now lines) 2) }
{
    let kind = entry::get(kinds, lines);
    if kind == turn::LARGE {
        return 1;
    }
    if kind == turn::CORNER {
        return 1;
    }
    0
}

// The points that level 2 keeps: those with three or four lines, or with a corner. No limit is asked of the width and the height, so
// they are no Size.
pub fn bends(width: u16, height: u16, masks: &[u16], kept: &mut [u16])
    requires { (length masks.now ≡ points width height) × (length kept.old ≡ points width height) }
    ensures { kept.new ≡ bends width height masks.now }
{
    let kinds = turn::kinds();
    let n = kept.len();
    for i in 0..n {
        kept[i] = bend(&kinds, masks[i]);
    }
}

// Whether a mask has three or four lines. By comparisons, which the compiler makes of many masks at a time.
fn is_large(lines: u16) -> bool
    ensures { result ≡ eqb (becomes_of lines 0) 3 }
{
    (lines == 7) | (lines == 11) | ((12 < lines) & (lines < 16))
}

// A flag for each point with three or four lines.
fn larges(masks: &[u16], kept: &mut [u16])
    requires { length masks.now ≡ length kept.old }
    ensures { kept.new ≡ table (length kept.old) (λ p. number (large masks.now p)) }
{
    let n = kept.len();
    for i in 0..n {
        kept[i] = u16::from(is_large(masks[i]));
    }
}

// Writes the flag of point i: a 1 at the point's top, a 0 at the point itself, so that nothing branches.
fn raise(tops: &[u16], kept: &mut [u16], i: usize, flag: u16)
    requires { (i < length tops.now) × (i < length kept.old) × (get_or tops.now i 0 ≤ i) × (flag ≤ 1) }
    ensures { kept.new ≡ set kept.old (i - (i - get_or tops.now i 0) * flag) flag }
{
    let top = tops[i] as usize;
    kept[i - (i - top) * (flag as usize)] = flag;
}

// Flags each point with three or four lines, and its top. No point's top is after the point, so a point at hand has its own flag
// or none, and where it has none, its own 0 is written again. The next flag is read before this one is written, since a machine
// may hold a read back behind a write whose place it does not know yet.
fn flag(masks: &[u16], tops: &[u16], kept: &mut [u16])
    requires { (length masks.now ≡ length kept.old) × (length tops.now ≡ length kept.old) × Rising tops.now }
    ensures { kept.new ≡
        table (length kept.old)
        (λ p. number
        (large masks.now p || stands (length kept.old) masks.now tops.now p)) }
{
    larges(masks, kept);
    let n = tops.len();
    if n == 0 {
        return;
    }
    let mut flag = kept[0];
    for i in 0..n - 1 {
        let after = kept[i + 1];
        raise(tops, kept, i, flag);
        flag = after;
    }
    raise(tops, kept, n - 1, flag);
}

// 1 for a point with three or four lines, and for one with lines that is its own top and has no flag; else 0.
fn settled(lines: u16, top: u16, p: u16, flag: u16) -> u16
    ensures { result ≡ number (eqb (becomes_of lines 0) 3 || (not (eqb lines 0) && eqb top p && not (eqb flag 1))) }
{
    u16::from(is_large(lines) | ((lines != 0) & (top == p) & (flag != 1)))
}

// The flags of so many points give way to the points that level 3 keeps.
fn settle(masks: &[u16], tops: &[u16], kept: &mut [u16], n: u16)
    requires { (length masks.now ≡ n) × (length tops.now ≡ n) × (length kept.old ≡ n) }
    ensures { kept.new ≡ table n (settles masks.now tops.now kept.old) }
{
    for p in 0..n {
        let i = p as usize;
        kept[i] = settled(masks[i], tops[i], p, kept[i]);
    }
}

// The points that level 3 keeps, from the tops of the pieces: those with three or four lines, and the anchors.
pub fn keeps(size: Size, masks: &[u16], tops: &[u16], kept: &mut [u16])
    requires { (length masks.now ≡ points size.width size.height) ×
        (length tops.now ≡ points size.width size.height) × (length kept.old ≡ points size.width size.height) ×
        Rising tops.now }
    ensures { kept.new ≡ keeps size.width size.height masks.now tops.now }
{
    flag(masks, tops, kept);
    settle(masks, tops, kept, dart::points(size));
}
