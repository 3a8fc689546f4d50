use answer::Refusal;
use case_sheets::lengths::{Lengths, Size};
use case_tables::tables::{HeldTables, HeldWorks};
use case_tables::{show, tables};
use std::alloc::{AllocError, Global};
use std::io;
use std::io::Write;

// Starts the drawing of a sheet with owners in seven tables, with work tables.
fn start(
    size: Size,
    sheet: &[u16],
    owners: &[u16],
    tables: &mut HeldTables,
    works: &mut HeldWorks,
) -> Result<(), Refusal> {
    editor_call::start::start(
        size.width,
        size.height,
        sheet,
        owners,
        &mut tables.next1,
        &mut tables.side1,
        &mut tables.next3,
        &mut tables.other3,
        &mut tables.parent,
        &mut tables.cells,
        &mut tables.borders,
        &mut works.a,
        &mut works.b,
        &mut works.c,
        &mut works.d,
    )
}

// The tables of these lengths that starting a drawing leaves.
pub(crate) fn tables(
    alloc: Global,
    size: Size,
    sheet: &[u16],
    owners: &[u16],
    lengths: Lengths,
) -> Result<HeldTables, AllocError> {
    let mut tables = HeldTables::untouched(alloc, lengths)?;
    let mut works = HeldWorks::untouched(alloc, lengths.works)?;
    let _ = start(size, sheet, owners, &mut tables, &mut works);
    Ok(tables)
}

// Writes of a start that was refused whether the seven tables are as they were, and of one that was done whether they are
// those of the plain drawing.
fn show_tables<W: Write>(
    alloc: Global,
    out: &mut W,
    size: Size,
    sheet: &[u16],
    lengths: Lengths,
    answer: Result<(), Refusal>,
    tables: &HeldTables,
) -> io::Result<()> {
    if answer.is_err() {
        return show::kept(out, tables::all_untouched(tables.tables()));
    }
    let mut drawn = HeldTables::untouched(alloc, lengths)?;
    let mut works = HeldWorks::untouched(alloc, lengths.works)?;
    let _ = case_drawing::draw(size, sheet, &mut drawn, &mut works);
    show::same(out, *tables == drawn)
}

// Starts a drawing in tables of these lengths and writes what is answered.
pub(crate) fn show<W: Write>(
    alloc: Global,
    out: &mut W,
    size: Size,
    sheet: &[u16],
    owners: &[u16],
    lengths: Lengths,
) -> io::Result<()> {
    let mut tables = HeldTables::untouched(alloc, lengths)?;
    let mut works = HeldWorks::untouched(alloc, lengths.works)?;
    let answer = start(size, sheet, owners, &mut tables, &mut works);
    show::text(out, b"start")?;
    show::number(out, answer::number(answer))?;
    show_tables(alloc, out, size, sheet, lengths, answer, &tables)?;
    tables::show_works(out, answer::number(answer), works.works())?;
    show::line_end(out)
}
