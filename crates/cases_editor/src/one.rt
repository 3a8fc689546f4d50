use answer::Refusal;
use case_sheets::lengths::{Size, WorkLengths};
use case_tables::tables;
use case_tables::tables::{Answered, HeldTables, HeldWorks};
use std::alloc::Global;
use std::io;
use std::io::Write;

// What an editor asks: that two names are joined.
#[derive(Clone, Copy)]
pub struct Call {
    pub editor: u16,
    pub first: u16,
    pub second: u16,
}

// Joins as an editor in seven tables, with work tables.
fn join(
    size: Size,
    owners: &[u16],
    call: Call,
    tables: &mut HeldTables,
    works: &mut HeldWorks,
) -> Result<(), Refusal> {
    editor_call::join::join(
        size.width,
        size.height,
        &mut tables.next1,
        &mut tables.side1,
        &mut tables.next3,
        &mut tables.other3,
        &mut tables.parent,
        &mut tables.cells,
        &mut tables.borders,
        owners,
        call.editor,
        call.first,
        call.second,
        &mut works.a,
        &mut works.b,
        &mut works.c,
        &mut works.d,
    )
}

// Joins as an editor, with work tables of these lengths, and writes what is answered: its number, of a refusal whether the seven
// tables are as they were, and how the work tables are left. Gives the number.
pub(crate) fn join_shown<W: Write>(
    alloc: Global,
    out: &mut W,
    size: Size,
    owners: &[u16],
    call: Call,
    lengths: WorkLengths,
    tables: &mut HeldTables,
) -> io::Result<u16> {
    let before = tables.clone()?;
    let mut works = HeldWorks::untouched(alloc, lengths)?;
    let answer = join(size, owners, call, tables, &mut works);
    let joined = Answered {
        answer,
        tables: tables.tables(),
        works: works.works(),
    };
    tables::show_joined(out, before.tables(), joined)?;
    Ok(answer::number(answer))
}
