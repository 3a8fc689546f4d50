use answer::Refusal;
use case_sheets::lengths::{Size, WorkLengths};
use case_tables::tables;
use case_tables::tables::{Answered, HeldTables, HeldWorks};
use join_call::regions;
use std::alloc::Global;
use std::io;
use std::io::Write;

// Joins two names in seven tables, with work tables.
pub(crate) fn join(
    size: Size,
    first: u16,
    second: u16,
    tables: &mut HeldTables,
    works: &mut HeldWorks,
) -> Result<(), Refusal> {
    regions::join(
        size.width,
        size.height,
        &mut tables.next1,
        &mut tables.side1,
        &mut tables.next3,
        &mut tables.other3,
        &mut tables.parent,
        &mut tables.cells,
        &mut tables.borders,
        first,
        second,
        &mut works.a,
        &mut works.b,
        &mut works.c,
        &mut works.d,
    )
}

// Joins two names, with work tables of these lengths, and writes what is answered.
fn join_shown<W: Write>(
    alloc: Global,
    out: &mut W,
    size: Size,
    first: u16,
    second: u16,
    lengths: WorkLengths,
    tables: &mut HeldTables,
) -> io::Result<()> {
    let before = tables.clone()?;
    let mut works = HeldWorks::untouched(alloc, lengths)?;
    let answer = join(size, first, second, tables, &mut works);
    let joined = Answered {
        answer,
        tables: tables.tables(),
        works: works.works(),
    };
    tables::show_joined(out, before.tables(), joined)
}

// Joins the names of a list, two by two.
pub(crate) fn join_all<W: Write>(
    alloc: Global,
    out: &mut W,
    size: Size,
    names: &[u16],
    lengths: WorkLengths,
    tables: &mut HeldTables,
) -> io::Result<()> {
    for pair in names.chunks_exact(2) {
        join_shown(alloc, out, size, pair[0], pair[1], lengths, tables)?;
    }
    Ok(())
}
