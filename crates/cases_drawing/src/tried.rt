use crate::{asked, given};
use answer::Refusal;
use case_sheets::lengths::{Lengths, Size, WorkLengths};
use case_sheets::{lengths, lent, made};
use case_tables::tables::{HeldTables, HeldWorks};
use case_tables::{show, tables};
use std::alloc::Global;
use std::io;
use std::io::Write;
use table_entries::entry;

// The seven tables of a sheet that was drawn, in full or their sums; of a refusal, whether they are as they were.
fn show_tables<W: Write>(
    out: &mut W,
    full: bool,
    answer: Result<(), Refusal>,
    tables: &HeldTables,
) -> io::Result<()> {
    if answer.is_err() {
        return show::kept(out, tables::all_untouched(tables.tables()));
    }
    tables::show(out, tables.tables(), full)
}

// Writes what drawing a sheet answered.
fn show_drawn<W: Write>(
    out: &mut W,
    full: bool,
    answer: Result<(), Refusal>,
    tables: &HeldTables,
    works: &HeldWorks,
) -> io::Result<()> {
    show::text(out, b"drawing")?;
    show::number(out, answer::number(answer))?;
    show_tables(out, full, answer, tables)?;
    tables::show_works(out, answer::number(answer), works.works())?;
    show::line_end(out)
}

// What is asked of a drawing that was made: the counts of all names, and, where it is written in full, of each name, and the turns
// of the curves.
fn ask<W: Write>(
    alloc: Global,
    out: &mut W,
    size: Size,
    full: bool,
    lengths: WorkLengths,
    tables: &HeldTables,
) -> io::Result<()> {
    let n = tables.parent.len();
    asked::counts(alloc, out, size, full, n, n, lengths, tables)?;
    if full {
        asked::names(alloc, out, size, lengths, tables)?;
        asked::turns(alloc, out, size, lengths, tables)?;
    }
    Ok(())
}

// Draws a sheet into tables of these lengths, and asks of the drawing.
fn draw_lengths<W: Write>(
    alloc: Global,
    out: &mut W,
    size: Size,
    sheet: &[u16],
    full: bool,
    lengths: Lengths,
) -> io::Result<()> {
    let mut tables = HeldTables::untouched(alloc, lengths)?;
    let mut works = HeldWorks::untouched(alloc, lengths.works)?;
    let answer = case_drawing::draw(size, sheet, &mut tables, &mut works);
    show_drawn(out, full, answer, &tables, &works)?;
    if answer.is_ok() {
        ask(alloc, out, size, full, lengths.works, &tables)?;
    }
    Ok(())
}

// Draws the sheet of a case into tables of the stated lengths.
fn draw_stated<W: Write>(
    alloc: Global,
    out: &mut W,
    size: Size,
    sheet: &[u16],
    full: bool,
) -> io::Result<()> {
    draw_lengths(alloc, out, size, sheet, full, lengths::stated(size))
}

// Draws a sheet that is made by a rule.
fn draw_made<W: Write>(
    alloc: Global,
    out: &mut W,
    size: Size,
    kind: u8,
    values: &[u16],
) -> io::Result<()> {
    let mut sheet = made::room();
    let n = made::sheet(kind, size.width, size.height, values, &mut sheet);
    draw_stated(alloc, out, size, &sheet[..n], false)
}

// Runs a case.
pub(crate) fn run<W: Write>(
    alloc: Global,
    out: &mut W,
    kind: u8,
    values: &[u16],
) -> io::Result<()> {
    let size = Size {
        width: entry::get(values, 0),
        height: entry::get(values, 1),
    };
    let rest = lent::from(values, 2);
    match kind {
        b'T' => draw_stated(alloc, out, size, rest, true),
        b'L' => draw_lengths(
            alloc,
            out,
            size,
            lent::from(rest, 11),
            true,
            lengths::given(rest),
        ),
        b'J' => given::run(alloc, out, size, entry::get(rest, 0), lent::from(rest, 1)),
        _ => draw_made(alloc, out, size, kind, rest),
    }
}
