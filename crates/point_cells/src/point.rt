ghost use Rattle.std.specs.Prelude.{◌≡◌, not, ◌*◌, ◌≤◌, ◌<◌, eqb};
ghost use Rattle.laws.specs.Table.{number};
ghost use Rattle.point_darts.specs.Point.{corner, right, present};

// The cell in a row and a column of the four.
fn corner(cells: [[u16; 2]; 2], row: usize, column: usize) -> u16
    requires { (row < 2) × (column < 2) }
    ensures { result ≡ corner cells row column }
{
    cells[row][column]
}

// A value where two cells differ, else 0.
fn where_differ(a: u16, b: u16, value: u16) -> u16
    ensures { (result ≡ value * number (not (eqb a b))) × (result ≤ value) }
{
    if a == b { 0 } else { value }
}

// The mask of the lines at a point that are present: those whose two sides differ.
pub fn present(cells: [[u16; 2]; 2]) -> u16
    ensures { result ≡ present cells }
{
    let nw = corner(cells, 0, 0);
    let ne = corner(cells, 0, 1);
    let sw = corner(cells, 1, 0);
    let se = corner(cells, 1, 1);
    let east = where_differ(se, ne, 1);
    let south = where_differ(sw, se, 2);
    let west = where_differ(nw, sw, 4);
    let north = where_differ(ne, nw, 8);
    east + south + west + north
}

// The cell on the right hand of the line that leaves a point in a direction; 0 for no direction.
pub fn right(cells: [[u16; 2]; 2], direction: u16) -> u16
    ensures { result ≡ right cells direction }
{
    match direction {
        0 => corner(cells, 1, 1),
        1 => corner(cells, 1, 0),
        2 => corner(cells, 0, 0),
        3 => corner(cells, 0, 1),
        _ => 0,
    }
}
