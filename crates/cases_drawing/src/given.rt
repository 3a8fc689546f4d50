use crate::asked;
use case_sheets::lengths::Size;
use case_sheets::{lengths, lent};
use case_tables::tables;
use std::alloc::Global;
use std::io;
use std::io::Write;

// Asks of the seven tables that stand one after another in a list, after the lengths. The lengths of the two tables that the counts
// fill stand before those of the work tables.
pub(crate) fn run<W: Write>(
    alloc: Global,
    out: &mut W,
    size: Size,
    name: u16,
    list: &[u16],
) -> io::Result<()> {
    let depths = lent::length(list, 7);
    let holes = lent::length(list, 8);
    let works = lengths::works(lent::from(list, 9));
    let tables = tables::held(alloc, list, lent::from(list, 13))?;
    asked::check(alloc, out, size, works, &tables)?;
    asked::counts(alloc, out, size, true, depths, holes, works, &tables)?;
    asked::turns(alloc, out, size, works, &tables)?;
    asked::depth(alloc, out, size, name, works, &tables)?;
    asked::holes(alloc, out, size, name, works, &tables)
}
