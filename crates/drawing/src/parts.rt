ghost use Rattle.std.specs.Prelude.{◌≡◌, ◌+◌, ◌*◌, length, take};
ghost use Rattle.laws.specs.Table.{table};
ghost use Rattle.point_darts.specs.Dart.{points, slots};
ghost use Rattle.paper.specs.Enclosure.{parent};
ghost use Rattle.paper.specs.Joining.{at, on};
ghost use Rattle.region_names.specs.Frame.{surround};
ghost use Rattle.region_totals.specs.Tally.{Named};
ghost use Rattle.region_totals.specs.Total.{Totalled};
ghost use Rattle.level_curves.specs.Link.{TwoWay};
ghost use Rattle.region_parents.specs.Tops.{Rising};
ghost use Rattle.drawing.specs.Parts.{Lined, Kept, Curved};

use level_curves::link;
use level_kept::keep;
use level_lines::{line, side};
use level_masks::mask;
use level_pieces::points;
use point_darts::dart;
use region_parents::parent;
use region_totals::total;
use sheet_size::Size;

// Level 1 from these names: the masks of the points at the front of a work table, next and side.
pub fn draw_lines(
    size: Size,
    round: &[u16],
    lines: &mut [u16],
    next1: &mut [u16],
    side1: &mut [u16],
)
    requires { (length round.now ≡ slots size.width size.height) ×
        (length lines.old ≡ slots size.width size.height) × (length next1.old ≡ slots size.width size.height) ×
        (length side1.old ≡ slots size.width size.height) }
    ensures { Lined size.width size.height (take (surround size.width size.height) round.now) lines.new next1.new
        side1.new }
{
    let points = dart::points(size) as usize;
    let around = points + size.width as usize + 2;
    mask::masks(size, &round[..around], &mut lines[..points]);
    line::nexts(size, &lines[..points], next1);
    side::sides(size, &round[..around], &lines[..points], side1);
}

// The points that level 3 keeps, at the front of a work table, with the tops of the pieces in another.
pub fn keep_points(size: Size, side1: &[u16], lines: &[u16], top: &mut [u16], kept: &mut [u16])
    requires { (length side1.now ≡ slots size.width size.height) ×
        (length lines.now ≡ slots size.width size.height) × (length top.old ≡ slots size.width size.height) ×
        (length kept.old ≡ slots size.width size.height) }
    ensures { Kept size.width size.height side1.now (take (points size.width size.height) lines.now) top.new
        kept.new }
{
    let n = dart::points(size) as usize;
    points::top_points(size, side1, &mut top[..n]);
    keep::keeps(size, &lines[..n], &top[..n], &mut kept[..n]);
}

// Level 3: next and other along the runs of level 1 between kept points.
pub fn draw_curves(size: Size, next1: &[u16], kept: &[u16], next3: &mut [u16], other3: &mut [u16])
    requires { (length kept.now ≡ slots size.width size.height) ×
        (length next3.old ≡ slots size.width size.height) × (length other3.old ≡ slots size.width size.height) ×
        (length next1.now ≡ slots size.width size.height) ×
        TwoWay size.width (slots size.width size.height) next1.now (take (points size.width size.height) kept.now) }
    ensures { Curved size.width size.height next1.now (take (points size.width size.height) kept.now) next3.new
        other3.new }
{
    let n = dart::points(size) as usize;
    link::links(size, next1, &kept[..n], next3, other3);
}

// The totals of each name, from the names with the outside round them. Odd is work.
pub fn draw_totals(
    size: Size,
    round: &[u16],
    cells: &mut [u16],
    borders: &mut [u16],
    odd: &mut [u16],
)
    requires { (length round.now ≡ slots size.width size.height) ×
        Named (size.width * size.height + 1) (take (surround size.width size.height) round.now) ×
        (length cells.old ≡ size.width * size.height + 1) × (length borders.old ≡ size.width * size.height + 1) ×
        (length odd.old ≡ slots size.width size.height) }
    ensures { Totalled size.width size.height (take (surround size.width size.height) round.now) cells.new borders.new }
{
    let around = dart::points(size) as usize + size.width as usize + 2;
    total::totals(size, &round[..around], cells, borders, odd);
}

// The parents, from the sides of level 1 and the tops of its pieces.
pub fn draw_parents(size: Size, side1: &[u16], top: &[u16], parents: &mut [u16])
    requires { (length top.now ≡ slots size.width size.height) ×
        Rising (take (points size.width size.height) top.now) × (length parents.old ≡ size.width * size.height + 1) ×
        (length side1.now ≡ slots size.width size.height) }
    ensures { parents.new ≡
        table (size.width * size.height + 1)
        (parent size.width (on side1.now) (at side1.now) (take (points size.width size.height) top.now)) }
{
    let n = dart::points(size) as usize;
    parent::find_parents(size, side1, &top[..n], parents);
}
