ghost use Rattle.std.specs.Prelude.{◌≡◌, cond, ◌&&◌, suc, ◌*◌, ◌-◌, ◌%◌, ◌<◌, ◌≤◌, eqb, ltb, length};
ghost use Rattle.laws.specs.Least.{tie, least};
ghost use Rattle.paper.specs.Name.{label, west, north};
ghost use Rattle.table_forest.specs.Forest.{Forest, Grown};

use sheet_size::Size;
use table_forest::nodes;

// Cell j where it has the label of cell i, else cell i.
#[tactic(auto, unfolding(paper::specs::Name::label))]
fn alike(sheet: &[u16], i: u16, j: u16) -> u16
    requires { (i < length sheet.now) × (j < length sheet.now) }
    ensures { result ≡ cond (eqb (label sheet.now i) (label sheet.now j)) j i }
{
    if sheet[i as usize] == sheet[j as usize] {
        return j;
    }
    i
}

// The cell west of cell i, which lies in this column, where both have one label, else cell i.
fn west(sheet: &[u16], column: u16, i: u16) -> u16
    requires { (i < length sheet.now) × (column ≤ i) }
    ensures { result ≡ cond (ltb 0 column && eqb (label sheet.now i) (label sheet.now (i - 1))) (i - 1) i }
{
    if column == 0 {
        return i;
    }
    alike(sheet, i, i - 1)
}

// The cell north of cell i where both have one label, else cell i.
#[tactic(auto, unfolding(paper::specs::Name::north))]
fn north(width: u16, sheet: &[u16], i: u16) -> u16
    requires { i < length sheet.now }
    ensures { result ≡ north width sheet.now i }
{
    if i < width {
        return i;
    }
    alike(sheet, i, i - width)
}

// A cell more among the regions of the cells before it.
fn grow(width: u16, sheet: &[u16], first: &mut [u16], column: u16, i: u16)
    requires { (column ≡ i % width) × (i < length sheet.now) × (i < length first.old) × Grown i first.old }
    ensures { (g : Grown i first.old) →
        Forest (suc i)
        (tie i (north width sheet.now i) (tie i (west width sheet.now i) g.labels))
        first.new }
{
    let w = west(sheet, column, i);
    let n = north(width, sheet, i);
    nodes::plant(first, i, w, n);
}

// The first cell of the region of each cell: regions are cells of one label that touch side by side.
pub fn first_cells(size: Size, sheet: &[u16], first: &mut [u16])
    requires { (length sheet.now ≡ size.width * size.height) × (length first.old ≡ size.width * size.height) }
    ensures { first.new ≡
        least (size.width * size.height) (west size.width sheet.now) (north size.width sheet.now) }
{
    let n = size.width * size.height;
    let mut column: u16 = 0;
    for i in 0..n {
        grow(size.width, sheet, first, column, i);
        column += 1;
        if column == size.width {
            column = 0;
        }
    }
    nodes::flatten(first);
}
