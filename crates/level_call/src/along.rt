ghost use Rattle.std.specs.Prelude.{◌≡◌, [], ◌∷◌, ◌+◌, ◌≤◌, length};
ghost use Rattle.point_darts.specs.Dart.{points, slots};
ghost use Rattle.paper.specs.Level.{tops};
ghost use Rattle.paper.specs.Joining.{on};
ghost use Rattle.level_kept.specs.Keep.{keeps};
ghost use Rattle.level_call.specs.Tables.{kept_points, tables_of, Surrounded};

use level_curves::link;
use level_kept::keep;
use level_lines::{line, side};
use level_masks::mask;
use level_pieces::points;
use point_darts::dart;
use sheet_size::Size;
use table_entries::entry;

// The points that level 3 keeps, from the lines of level 1 and their sides. The tops of the pieces are found in a table
// of slot length, which is scratch.
fn keep_anchors(size: Size, side: &[u16], masks: &[u16], scratch: &mut [u16], kept: &mut [u16])
    requires { (length side.now ≡ slots size.width size.height) ×
        (length masks.now ≡ points size.width size.height) × (length scratch.old ≡ slots size.width size.height) ×
        (length kept.old ≡ points size.width size.height) }
    ensures { kept.new ≡ keeps size.width size.height masks.now (tops size.width size.height (on side.now)) }
{
    let n = dart::points(size) as usize;
    points::top_points(size, side, &mut scratch[..n]);
    keep::keeps(size, masks, &scratch[..n], kept);
}

// The points that level 2 or 3 keeps, from the lines of level 1 and their sides.
fn keep_points(
    size: Size,
    level: u16,
    side: &[u16],
    masks: &[u16],
    scratch: &mut [u16],
    kept: &mut [u16],
)
    requires { (length side.now ≡ slots size.width size.height) ×
        (length masks.now ≡ points size.width size.height) × (length scratch.old ≡ slots size.width size.height) ×
        (length kept.old ≡ points size.width size.height) }
    ensures { kept.new ≡ kept_points size.width size.height level masks.now side.now }
{
    if level == 2 {
        keep::bends(size.width, size.height, masks, kept);
        return;
    }
    keep_anchors(size, side, masks, scratch, kept);
}

// Level 2 or 3: next and other along the runs of level 1 between kept points.
pub fn along(
    size: Size,
    level: u16,
    framed: &[u16],
    next1: &mut [u16],
    masks: &mut [u16],
    kept: &mut [u16],
    next: &mut [u16],
    other: &mut [u16],
    side: &mut [u16],
)
    requires { (2 ≤ level) × (level ≤ 3) ×
        (length framed.now ≡ points size.width size.height + size.width + 2) × (length next1.old ≡ slots size.width size.height) ×
        (length masks.old ≡ points size.width size.height) × (length kept.old ≡ points size.width size.height) ×
        (length next.old ≡ slots size.width size.height) × (length other.old ≡ slots size.width size.height) ×
        (length side.old ≡ slots size.width size.height) × Surrounded size.width size.height framed.now }
    ensures { (next.new ∷ other.new ∷ side.new ∷ []) ≡
        tables_of size.width size.height level framed.now }
{
    mask::masks(size, framed, masks);
    line::nexts(size, masks, next1);
    side::sides(size, framed, masks, side);
    keep_points(size, level, side, masks, next, kept);
    link::links(size, next1, kept, next, other);
    entry::trim(next, side);
}
