ghost use Rattle.std.specs.Prelude.{◌≡◌, [], ◌∷◌, ◌+◌, ◌<◌, length};
ghost use Rattle.point_darts.specs.Dart.{points, slots};
ghost use Rattle.level_call.specs.Tables.{tables_of};

use level_lines::{line, side};
use level_masks::mask;
use sheet_size::Size;

// Level 0 or 1, which keep every point.
pub fn plain(
    size: Size,
    level: u16,
    framed: &[u16],
    masks: &mut [u16],
    next: &mut [u16],
    other: &mut [u16],
    side: &mut [u16],
)
    requires { (level < 2) × (length framed.now ≡ points size.width size.height + size.width + 2) ×
        (length masks.old ≡ points size.width size.height) × (length next.old ≡ slots size.width size.height) ×
        (length other.old ≡ slots size.width size.height) × (length side.old ≡ slots size.width size.height) }
    ensures { (next.new ∷ other.new ∷ side.new ∷ []) ≡
        tables_of size.width size.height level framed.now }
{
    mask::draft(size, level, framed, masks);
    line::nexts(size, masks, next);
    line::others(size, masks, other);
    side::sides(size, framed, masks, side);
}
