ghost use Rattle.std.specs.Prelude.{◌≡◌, [], ◌∷◌, ◌+◌, ◌*◌, ◌≤◌, length};
ghost use Rattle.point_darts.specs.Dart.{points, slots};
ghost use Rattle.paper.specs.Refusal.{cleared, level_tables};
ghost use Rattle.level_call.specs.Tables.{tables_of, Surrounded};

use crate::{along, plain};
use point_darts::dart;
use region_names::names;
use sheet_size::Size;
use table_entries::entry;

// The level of a number up to 3.
fn numbered(
    size: Size,
    level: u16,
    framed: &[u16],
    next1: &mut [u16],
    masks: &mut [u16],
    kept: &mut [u16],
    next: &mut [u16],
    other: &mut [u16],
    side: &mut [u16],
)
    requires { (level ≤ 3) × (length framed.now ≡ points size.width size.height + size.width + 2) ×
        (length next1.old ≡ slots size.width size.height) × (length masks.old ≡ points size.width size.height) ×
        (length kept.old ≡ points size.width size.height) × (length next.old ≡ slots size.width size.height) ×
        (length other.old ≡ slots size.width size.height) × (length side.old ≡ slots size.width size.height) ×
        Surrounded size.width size.height framed.now }
    ensures { (next.new ∷ other.new ∷ side.new ∷ []) ≡
        tables_of size.width size.height level framed.now }
{
    if level < 2 {
        plain::plain(size, level, framed, masks, next, other, side);
        return;
    }
    along::along(size, level, framed, next1, masks, kept, next, other, side);
}

// Draws a level of a sheet where nothing is refused.
pub fn fill(
    size: Size,
    level: u16,
    sheet: &[u16],
    next: &mut [u16],
    other: &mut [u16],
    side: &mut [u16],
    a: &mut [u16],
    b: &mut [u16],
    c: &mut [u16],
    d: &mut [u16],
)
    requires { (level ≤ 3) × (length sheet.now ≡ size.width * size.height) ×
        (length next.old ≡ slots size.width size.height) × (length other.old ≡ slots size.width size.height) ×
        (length side.old ≡ slots size.width size.height) × (length a.old ≡ slots size.width size.height) ×
        (length b.old ≡ slots size.width size.height) × (length c.old ≡ slots size.width size.height) ×
        (length d.old ≡ slots size.width size.height) }
    ensures { ((next.new ∷ other.new ∷ side.new ∷ []) ≡
        level_tables size.width size.height level sheet.now) ×
        ((a.new ∷ b.new ∷ c.new ∷ d.new ∷ []) ≡
        cleared (a.old ∷ b.old ∷ c.old ∷ d.old ∷ [])) }
{
    let points = dart::points(size) as usize;
    let framed = points + size.width as usize + 2;
    names::name_cells(size, sheet, a, b);
    numbered(
        size,
        level,
        &b[..framed],
        a,
        &mut c[..points],
        &mut d[..points],
        next,
        other,
        side,
    );
    entry::clear_four(a, b, c, d);
}
