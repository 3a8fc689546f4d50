ghost use Rattle.std.specs.Prelude.{◌≡◌, ◌<◌};
ghost use Rattle.point_darts.specs.Point.{has};
ghost use Rattle.point_rules.specs.Turn.{turning_of, turn_of, point_table, kinding};

// No direction: what next_line answers where no line is present.
const NONE: u16 = 4;

// What the point table says of two lines in line, of a corner, and of three or four lines.
pub const IN_LINE: u16 = 1;

pub const CORNER: u16 = 2;

pub const LARGE: u16 = 3;

// What a point becomes, at 16 times the mask of present lines plus the mask of taken ones: 0 gone, 1 two lines in line,
// 2 a corner, 3 three or four lines, 4 cannot be.
const POINT_TABLE: [u16; 256] = [
    0, 4, 4, 4, 4, 4, 4, 4, 4, 4, 4, 4, 4, 4, 4, 4, 4, 4, 4, 4, 4, 4, 4, 4, 4, 4, 4, 4, 4, 4, 4, 4,
    4, 4, 4, 4, 4, 4, 4, 4, 4, 4, 4, 4, 4, 4, 4, 4, 2, 4, 4, 0, 4, 4, 4, 4, 4, 4, 4, 4, 4, 4, 4, 4,
    4, 4, 4, 4, 4, 4, 4, 4, 4, 4, 4, 4, 4, 4, 4, 4, 1, 4, 4, 4, 4, 0, 4, 4, 4, 4, 4, 4, 4, 4, 4, 4,
    2, 4, 4, 4, 4, 4, 0, 4, 4, 4, 4, 4, 4, 4, 4, 4, 3, 2, 1, 4, 2, 4, 4, 0, 4, 4, 4, 4, 4, 4, 4, 4,
    4, 4, 4, 4, 4, 4, 4, 4, 4, 4, 4, 4, 4, 4, 4, 4, 2, 4, 4, 4, 4, 4, 4, 4, 4, 0, 4, 4, 4, 4, 4, 4,
    1, 4, 4, 4, 4, 4, 4, 4, 4, 4, 0, 4, 4, 4, 4, 4, 3, 1, 2, 4, 4, 4, 4, 4, 2, 4, 4, 0, 4, 4, 4, 4,
    2, 4, 4, 4, 4, 4, 4, 4, 4, 4, 4, 4, 0, 4, 4, 4, 3, 2, 4, 4, 2, 4, 4, 4, 1, 4, 4, 4, 4, 0, 4, 4,
    3, 4, 2, 4, 1, 4, 4, 4, 2, 4, 4, 4, 4, 4, 0, 4, 3, 3, 3, 2, 3, 1, 2, 4, 3, 2, 1, 4, 2, 4, 4, 0,
];

// The turn that is taken at a point into the line that follows. To have none is one of the five answers, and no Option, since request
// T-05 names five.
#[derive(Clone, Copy)]
pub enum Turn {
    Right,
    Straight,
    Left,
    Back,
    // No line is present.
    None,
}

// The line that follows at a point, and the turn that leads to it.
#[derive(Clone, Copy)]
pub struct NextLine {
    pub direction: u16,
    pub turn: Turn,
}

// Whether a mask has the line in a direction.
fn has(lines: u16, direction: u16) -> bool
    requires { direction < 4 }
    ensures { result ≡ has lines direction }
{
    (lines >> direction) % 2 == 1
}

// Of the lines present at a point, the first of right turn, straight on, left turn and back, for a heading, and which of them it
// is; none where no line is present, or a number is no mask or no heading.
pub fn next_line(present: u16, heading: u16) -> NextLine
    ensures { (result.direction ≡ turn_of present heading) × (result.turn ≡ turning_of present heading) }
{
    if 15 < present {
        return NextLine {
            direction: NONE,
            turn: Turn::None,
        };
    }
    if 3 < heading {
        return NextLine {
            direction: NONE,
            turn: Turn::None,
        };
    }
    let right = (heading + 1) % 4;
    if has(present, right) {
        return NextLine {
            direction: right,
            turn: Turn::Right,
        };
    }
    if has(present, heading) {
        return NextLine {
            direction: heading,
            turn: Turn::Straight,
        };
    }
    let left = (heading + 3) % 4;
    if has(present, left) {
        return NextLine {
            direction: left,
            turn: Turn::Left,
        };
    }
    let back = (heading + 2) % 4;
    if has(present, back) {
        return NextLine {
            direction: back,
            turn: Turn::Back,
        };
    }
    NextLine {
        direction: NONE,
        turn: Turn::None,
    }
}

// The point table. A constant table is built anew where it is named, so who reads it at many points names it once.
pub fn point_table() -> [u16; 256]
    ensures { result ≡ point_table }
{
    POINT_TABLE
}

// What the point table says of each mask where no line is taken. It is written out, since a table is built anew where it
// is named.
pub fn kinds() -> [u16; 16]
    ensures { result ≡ kinding }
{
    [0, 4, 4, 2, 4, 1, 2, 3, 4, 2, 1, 3, 2, 3, 3, 3]
}
