// Filling a cell table: the cells of a row copied to a place.
ghost use Rattle.std.specs.Prelude.{◌≡◌, ◌+◌, ◌≤◌, length};
ghost use Rattle.std.proofs.Math.Seq.{paste};

// Copies a row's cells into the cell table from a place on, and answers the place after them.
pub fn copy(row: &[u8], cells: &mut [u16], from: usize) -> usize
    requires { from + length row.now ≤ length cells.old }
    ensures { (result ≡ from + length row.now)
        × (cells.new ≡ paste cells.old from row.now (length row.now)) }
{
    for i in 0..row.len() {
        cells[from + i] = row[i] as u16;
    }
    from + row.len()
}
