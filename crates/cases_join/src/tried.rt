ghost use Rattle.case_sheets.specs.Room.{Fits};

use crate::sitting::Pace;
use crate::{listed, one, sitting};
use case_sheets::lengths::{Lengths, Size, WorkLengths};
use case_sheets::{lengths, lent, made};
use case_tables::tables::HeldTables;
use case_tables::{show, tables};
use std::alloc::Global;
use std::io;
use std::io::Write;
use table_entries::entry;

// Joins two names in seven tables that a case gives.
fn join_given<W: Write>(
    alloc: Global,
    out: &mut W,
    size: Size,
    values: &[u16],
    lengths: Lengths,
) -> io::Result<()> {
    let list = lent::from(values, 2);
    let mut tables = tables::held(alloc, list, lent::from(list, 11))?;
    let names = lent::part(values, 0, 2);
    one::join_all(alloc, out, size, names, lengths.works, &mut tables)
}

// The place after the list that a case starts with: its count, and its names.
fn list_end(values: &[u16]) -> usize {
    entry::get(values, 0) as usize + 1
}

// Joins by a list in seven tables that a case gives.
fn list_given<W: Write>(
    alloc: Global,
    out: &mut W,
    size: Size,
    values: &[u16],
    lengths: Lengths,
) -> io::Result<()> {
    let end = list_end(values);
    let list = lent::from(values, end);
    let mut tables = tables::held(alloc, list, lent::from(list, 11))?;
    let names = lent::part(values, 1, end);
    listed::join_shown(alloc, out, size, names, lengths.works, &mut tables)
}

// Joins the names of a case in its drawing, and writes the seven tables where they are asked for.
fn join_names<W: Write>(
    alloc: Global,
    out: &mut W,
    kind: u8,
    size: Size,
    names: &[u16],
    lengths: WorkLengths,
    tables: &mut HeldTables,
) -> io::Result<()> {
    if kind == b'L' {
        listed::join_shown(alloc, out, size, names, lengths, tables)?;
        return tables::show(out, tables.tables(), true);
    }
    one::join_all(alloc, out, size, names, lengths, tables)?;
    if kind == b'T' {
        tables::show(out, tables.tables(), true)?;
    }
    Ok(())
}

// The pace that a case gives.
fn pace_of(values: &[u16]) -> Pace {
    Pace {
        every: entry::get(values, 0),
        stride: entry::get(values, 1),
    }
}

// Goes through a case with tables of these lengths.
fn go<W: Write>(
    alloc: Global,
    out: &mut W,
    kind: u8,
    size: Size,
    sheet: &mut [u16],
    values: &[u16],
    lengths: Lengths,
) -> io::Result<()> {
    if kind == b'J' {
        return join_given(alloc, out, size, values, lengths);
    }
    if kind == b'M' {
        return list_given(alloc, out, size, values, lengths);
    }
    let mut tables = sitting::drawn(alloc, size, sheet, lengths)?;
    if kind == b'D' {
        let pace = pace_of(values);
        return sitting::sit(alloc, out, size, lengths, pace, sheet, &mut tables);
    }
    let names = lent::from(values, sheet.len());
    join_names(alloc, out, kind, size, names, lengths.works, &mut tables)
}

// The lengths of the tables of a case: those that it gives with its tables, else the stated ones.
fn lengths_of(kind: u8, size: Size, values: &[u16]) -> Lengths
    ensures { Fits result }
{
    match kind {
        b'J' => lengths::given(lent::from(values, 2)),
        b'M' => lengths::given(lent::from(values, list_end(values))),
        _ => lengths::stated(size),
    }
}

// Runs a case.
pub(crate) fn run<W: Write>(
    alloc: Global,
    out: &mut W,
    kind: u8,
    values: &[u16],
) -> io::Result<()> {
    let size = Size {
        width: entry::get(values, 0),
        height: entry::get(values, 1),
    };
    let rest = lent::from(values, 2);
    let mut sheet = made::room();
    let n = made::sheet(kind, size.width, size.height, rest, &mut sheet);
    show::text(out, b"join")?;
    go(
        alloc,
        out,
        kind,
        size,
        &mut sheet[..n],
        rest,
        lengths_of(kind, size, rest),
    )?;
    show::line_end(out)
}
