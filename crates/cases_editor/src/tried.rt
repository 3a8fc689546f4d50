use crate::one::Call;
use crate::{alone, mixture, one, started};
use case_sheets::lengths::{Lengths, Size};
use case_sheets::{lengths, lent};
use case_tables::{show, tables};
use std::alloc::Global;
use std::io;
use std::io::Write;
use table_entries::entry;

// Starts a drawing with the labels, the owners and the lengths that a case gives.
fn start_given<W: Write>(alloc: Global, out: &mut W, size: Size, values: &[u16]) -> io::Result<()> {
    let labels = entry::get(values, 0) as usize;
    let names = entry::get(values, 1) as usize;
    let lengths = lengths::given(lent::from(values, 2));
    let list = lent::from(values, 13);
    let sheet = lent::part(list, 0, labels);
    let owners = lent::part(list, labels, labels + names);
    started::show(alloc, out, size, sheet, owners, lengths)
}

// Joins as an editor in seven tables that a case gives.
fn join_given<W: Write>(alloc: Global, out: &mut W, size: Size, values: &[u16]) -> io::Result<()> {
    let call = Call {
        editor: entry::get(values, 0),
        first: entry::get(values, 1),
        second: entry::get(values, 2),
    };
    let names = entry::get(values, 3) as usize;
    let list = lent::from(values, 4);
    let owners = lent::part(list, 11, 11 + names);
    let lengths = lengths::given(list);
    let mut tables = tables::held(alloc, list, lent::from(list, 11 + names))?;
    show::text(out, b"join")?;
    one::join_shown(alloc, out, size, owners, call, lengths.works, &mut tables)?;
    show::line_end(out)
}

// Starts a drawing, makes the calls of both editors, and then those of each alone.
fn mix<W: Write>(
    alloc: Global,
    out: &mut W,
    size: Size,
    sheet: &[u16],
    owners: &[u16],
    calls: &[u16],
    lengths: Lengths,
) -> io::Result<()> {
    started::show(alloc, out, size, sheet, owners, lengths)?;
    show::text(out, b"joins")?;
    let left = mixture::left_by(
        alloc,
        out,
        size,
        sheet,
        owners,
        calls,
        mixture::ALL,
        lengths,
    )?;
    show::line_end(out)?;
    alone::show(alloc, out, size, sheet, owners, calls, 1, lengths, &left)?;
    alone::show(alloc, out, size, sheet, owners, calls, 2, lengths, &left)
}

// Makes the calls that a case gives with a sheet and its owners.
fn mix_given<W: Write>(alloc: Global, out: &mut W, size: Size, values: &[u16]) -> io::Result<()> {
    let labels = lent::cells(size.width, size.height);
    let sheet = lent::part(values, 0, labels);
    let owners = lent::part(values, labels, 2 * labels + 1);
    let calls = lent::from(values, 2 * labels + 1);
    mix(
        alloc,
        out,
        size,
        sheet,
        owners,
        calls,
        lengths::stated(size),
    )
}

// Runs a case.
pub(crate) fn run<W: Write>(
    alloc: Global,
    out: &mut W,
    kind: u8,
    values: &[u16],
) -> io::Result<()> {
    let size = Size {
        width: entry::get(values, 0),
        height: entry::get(values, 1),
    };
    let rest = lent::from(values, 2);
    match kind {
        b'S' => start_given(alloc, out, size, rest),
        b'G' => join_given(alloc, out, size, rest),
        _ => mix_given(alloc, out, size, rest),
    }
}
