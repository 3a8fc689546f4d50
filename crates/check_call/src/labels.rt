ghost use Rattle.std.specs.Prelude.{◌≡◌, ◌*◌, ◌<◌, length};
ghost use Rattle.point_darts.specs.Dart.{slots};
ghost use Rattle.paper.specs.Drawing.{recovered};
ghost use Rattle.check_call.specs.Label.{label_at};

use point_darts::dart;
use point_darts::dart::Dart;
use sheet_size::Size;

// The side of a dart where it is present, else the label to the left. It is one choice of two numbers, since which lines are
// present is hard to foresee.
fn label_at(side: &[u16], line: u16, left: u16) -> u16
    requires { line < length side.now }
    ensures { result ≡ label_at side.now line left }
{
    let label = side[line as usize];
    if label == dart::MARK { left } else { label }
}

// The label of each cell that the sides of level 1 tell: the side of the north dart of the cell's left line where that
// is present, else the label of the cell to its left.
pub fn recover(size: Size, side: &[u16], labels: &mut [u16])
    requires { (length side.now ≡ slots size.width size.height) × (length labels.old ≡ size.width * size.height) }
    ensures { labels.new ≡ recovered size.width size.height side.now }
{
    let n = size.width * size.height;
    let mut label = dart::MARK;
    let mut point = size.width + 1;
    let mut column: u16 = 0;
    for i in 0..n {
        label = label_at(side, Dart::leaving(point, Dart::NORTH).number, label);
        labels[i as usize] = label;
        point += 1;
        column += 1;
        if column == size.width {
            column = 0;
            point += 1;
        }
    }
}
