ghost use Rattle.std.specs.Prelude.{◌≡◌, ◌&&◌, ◌-◌, ◌+◌, ◌*◌, ◌≤◌, ◌<◌};
ghost use Rattle.sheet_size.specs.Size.{within};
ghost use Rattle.point_darts.specs.Dart.{mark, points, slots, dart, made, point, direction, beside, turned, stays, line};
ghost use Rattle.point_darts.specs.Dart.{reversal, reversed};

use sheet_size::Size;

// "None" in every table of links, sides or parents: never a dart, a point or a name.
pub const MARK: u16 = 65535;

// A unit line that leaves a point, by its number: 4 times the point, plus the direction.
#[derive(Clone, Copy)]
pub struct Dart {
    pub number: u16,
}

// How many points a sheet has: one more than cells to a row, and one more row of them than of cells.
pub fn points(size: Size) -> u16
    ensures { result ≡ points size.width size.height }
{
    (size.width + 1) * (size.height + 1)
}

// How many dart numbers a sheet has: four for each point.
pub fn slots(size: Size) -> u16
    ensures { result ≡ slots size.width size.height }
{
    4 * points(size)
}

// The slot of the first of the four darts that leave a point, the one east. The others follow by their directions.
pub fn first_slot(point: u16) -> usize
    ensures { result ≡ dart point 0 }
{
    4 * (point as usize)
}

// The direction that leads back: two quarter turns.
pub fn opposite(direction: u16) -> u16
    requires { direction < 4 }
    ensures { result ≡ turned direction 2 }
{
    (direction + 2) % 4
}

// A number for each direction, of the lines or the darts that leave a point.
#[derive(Clone, Copy)]
pub struct Four {
    pub east: u16,
    pub south: u16,
    pub west: u16,
    pub north: u16,
}

// The point one line away from a point.
pub fn beside(point: u16, width: u16, direction: u16) -> u16
    requires { point + (width + 1) < 65536 }
    ensures { result ≡ beside width point direction }
{
    match direction {
        Dart::EAST => point + 1,
        Dart::SOUTH => point + (width + 1),
        Dart::WEST => point.saturating_sub(1),
        _ => point.saturating_sub(width + 1),
    }
}

// The points one line away from a point, in the four directions.
pub fn besides(point: u16, width: u16) -> Four
    requires { point + (width + 1) < 65536 }
    ensures { (result.east ≡ beside width point 0) × (result.south ≡ beside width point 1) × (result.west ≡ beside width point 2) ×
        (result.north ≡ beside width point 3) }
{
    Four {
        east: beside(point, width, Dart::EAST),
        south: beside(point, width, Dart::SOUTH),
        west: beside(point, width, Dart::WEST),
        north: beside(point, width, Dart::NORTH),
    }
}

// The reversals of the four darts that leave a point.
pub fn reversals(point: u16, width: u16) -> Four
    requires { dart point 3 + 4 * (width + 2) < mark }
    ensures { (result.east ≡ reversal width (dart point 0)) × (result.south ≡ reversal width (dart point 1)) ×
        (result.west ≡ reversal width (dart point 2)) × (result.north ≡ reversal width (dart point 3)) }
{
    Four {
        east: Dart::leaving(point, Dart::EAST).back(width).number,
        south: Dart::leaving(point, Dart::SOUTH).back(width).number,
        west: Dart::leaving(point, Dart::WEST).back(width).number,
        north: Dart::leaving(point, Dart::NORTH).back(width).number,
    }
}

// Whether the line in a direction from the point in column x and row y stays on the sheet.
fn stays(width: u16, height: u16, x: u16, y: u16, direction: u16) -> bool
    ensures { result ≡ stays width height x y direction }
{
    match direction {
        Dart::EAST => x < width,
        Dart::SOUTH => y < height,
        Dart::WEST => 0 < x,
        _ => 0 < y,
    }
}

impl Dart {
    pub const EAST: u16 = 0;

    pub const SOUTH: u16 = 1;

    pub const WEST: u16 = 2;

    pub const NORTH: u16 = 3;

    // The dart that leaves a point in a direction; the mark where the direction is none of the four or the number would
    // not fit. The mark is "none", and no Option, since it is what the tables hold.
    pub fn new(point: u16, direction: u16) -> Dart
        ensures { result.number ≡ made point direction }
    {
        if 3 < direction {
            return Dart { number: MARK };
        }
        if MARK / 4 < point {
            return Dart { number: MARK };
        }
        Dart::leaving(point, direction)
    }

    // The dart that leaves a point in a direction, where its number fits.
    pub fn leaving(point: u16, direction: u16) -> Dart
        requires { dart point direction ≤ mark }
        ensures { result.number ≡ dart point direction }
    {
        Dart {
            number: 4 * point + direction,
        }
    }

    // The point that it leaves.
    pub fn point(self) -> u16
        ensures { result ≡ point self.number }
    {
        self.number / 4
    }

    // The direction in which it leaves.
    pub fn direction(self) -> u16
        ensures { result ≡ direction self.number }
    {
        self.number % 4
    }

    // Whether the size is one, and the line stays on a sheet of this size. Any two numbers are asked, so they are no Size yet.
    pub fn on_sheet(self, width: u16, height: u16) -> bool
        ensures { result ≡ (within width height && line width height self.number) }
    {
        if !sheet_size::within(width, height) {
            return false;
        }
        let point = self.point();
        let row = width + 1;
        if height < point / row {
            return false;
        }
        stays(width, height, point % row, point / row, self.direction())
    }

    // The dart that leads back along the same line; the mark where the size is none or the line leaves the sheet.
    pub fn reversal(self, width: u16, height: u16) -> Dart
        ensures { result.number ≡ reversed width height self.number }
    {
        if !self.on_sheet(width, height) {
            return Dart { number: MARK };
        }
        self.back(width)
    }

    // The dart that leads back, where its number fits; where the line leaves the sheet, the number that the rule gives.
    pub fn back(self, width: u16) -> Dart
        requires { self.number + 4 * (width + 2) < mark }
        ensures { result.number ≡ reversal width self.number }
    {
        let direction = self.direction();
        Dart::leaving(beside(self.point(), width, direction), opposite(direction))
    }
}
