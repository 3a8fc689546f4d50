use case_sheets::lengths::{Size, WorkLengths};
use case_tables::tables::{HeldTables, HeldWorks};
use case_tables::{show, tables};
use join_call::list;
use join_list::each::ListRefusal;
use std::alloc::Global;
use std::io;
use std::io::Write;

// Joins by a list of names in seven tables, with work tables.
fn join(
    size: Size,
    names: &[u16],
    tables: &mut HeldTables,
    works: &mut HeldWorks,
) -> Result<(), ListRefusal> {
    list::join_list(
        size.width,
        size.height,
        &mut tables.next1,
        &mut tables.side1,
        &mut tables.next3,
        &mut tables.other3,
        &mut tables.parent,
        &mut tables.cells,
        &mut tables.borders,
        names,
        &mut works.a,
        &mut works.b,
        &mut works.c,
        &mut works.d,
    )
}

// Writes what a list answered: its number, of a refusal its place and whether the seven tables are as they were, and how
// the work tables are left.
fn show_answer<W: Write>(
    out: &mut W,
    joined: Result<(), ListRefusal>,
    before: &HeldTables,
    tables: &HeldTables,
    works: &HeldWorks,
) -> io::Result<()> {
    let number = answer::number(joined.map_err(|refused| refused.refusal));
    show::number(out, number)?;
    if let Err(refused) = joined {
        show::text(out, b" place")?;
        show::number(out, refused.place)?;
        show::kept(out, *before == *tables)?;
    }
    tables::show_works(out, number, works.works())
}

// Joins by a list of names, with work tables of these lengths, and writes what is answered.
pub(crate) fn join_shown<W: Write>(
    alloc: Global,
    out: &mut W,
    size: Size,
    names: &[u16],
    lengths: WorkLengths,
    tables: &mut HeldTables,
) -> io::Result<()> {
    let before = tables.clone()?;
    let mut works = HeldWorks::untouched(alloc, lengths)?;
    let joined = join(size, names, tables, &mut works);
    show_answer(out, joined, &before, tables, &works)
}
