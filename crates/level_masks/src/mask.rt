ghost use Rattle.std.specs.Prelude.{◌≡◌, ◌+◌, ◌*◌, ◌<◌, ◌≤◌, ltb, length};
ghost use Rattle.laws.specs.Table.{number};
ghost use Rattle.point_darts.specs.Dart.{points};
ghost use Rattle.level_masks.specs.Mask.{around, masked, ruled, plain_masks};

use point_cells::point;
use point_darts::dart;
use sheet_size::Size;

// The four cells round a point, from the names with the outside round them.
pub fn around(width: u16, framed: &[u16], p: u16) -> [[u16; 2]; 2]
    requires { p + (width + 2) < length framed.now }
    ensures { result ≡ around width framed.now p }
{
    let north = p as usize;
    let south = north + (width as usize + 1);
    [
        [framed[north], framed[north + 1]],
        [framed[south], framed[south + 1]],
    ]
}

// The lines of level 1 at each point: those with two sides that differ.
pub fn masks(size: Size, framed: &[u16], masks: &mut [u16])
    requires { (length framed.now ≡ points size.width size.height + size.width + 2) ×
        (length masks.old ≡ points size.width size.height) }
    ensures { masks.new ≡ masked size.width size.height framed.now }
{
    let n = dart::points(size);
    for p in 0..n {
        masks[p as usize] = point::present(around(size.width, framed, p));
    }
}

// A value where one number is below another, else 0.
fn where_below(a: u16, b: u16, value: u16) -> u16
    ensures { (result ≡ value * number (ltb a b)) × (result ≤ value) }
{
    if a < b { value } else { 0 }
}

// The mask of the lines of the sheet at the point in column x and row y, of any width and height.
fn ruling(width: u16, height: u16, x: u16, y: u16) -> u16
    ensures { result ≡
        number (ltb x width) + 2 * number (ltb y height) + 4 * number (ltb 0 x) + 8 * number (ltb 0 y) }
{
    let east = where_below(x, width, 1);
    let south = where_below(y, height, 2);
    let west = where_below(0, x, 4);
    let north = where_below(0, y, 8);
    east + south + west + north
}

// The lines of level 0 at each point: every line of the sheet.
pub fn rule(size: Size, masks: &mut [u16])
    requires { length masks.old ≡ points size.width size.height }
    ensures { masks.new ≡ ruled size.width size.height }
{
    let n = masks.len();
    let mut x: u16 = 0;
    let mut y: u16 = 0;
    for i in 0..n {
        masks[i] = ruling(size.width, size.height, x, y);
        x += 1;
        if size.width < x {
            x = 0;
            y += 1;
        }
    }
}

// The lines of level 0 or 1 at each point.
pub fn draft(size: Size, level: u16, framed: &[u16], lines: &mut [u16])
    requires { (length framed.now ≡ points size.width size.height + size.width + 2) ×
        (length lines.old ≡ points size.width size.height) }
    ensures { lines.new ≡ plain_masks size.width size.height level framed.now }
{
    if level == 0 {
        rule(size, lines);
        return;
    }
    masks(size, framed, lines);
}
