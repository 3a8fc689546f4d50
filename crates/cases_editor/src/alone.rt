use crate::mixture;
use crate::mixture::Left;
use case_sheets::lengths::{Lengths, Size};
use case_sheets::lent;
use case_tables::show;
use point_darts::dart;
use std::alloc::Global;
use std::io;
use std::io::Write;
use table_entries::entry;

// What the tables by name say of a region.
#[derive(Clone, Copy, PartialEq, Eq)]
pub struct Region {
    pub present: bool,
    pub cells: u16,
    pub borders: u16,
}

// Whether the replies to an editor's calls are the same as others; both stand at the places of their calls.
fn same_replies(calls: &[u16], editor: u16, replies: &[u16], others: &[u16]) -> bool {
    let count = mixture::count_of(calls);
    let mut agree = true;
    for i in 0..count {
        if mixture::call_at(calls, i).editor == editor {
            agree = agree & (entry::get(replies, i) == entry::get(others, i));
        }
    }
    agree
}

// A name that an editor owns, 0 for any other.
fn own(owners: &[u16], editor: u16, name: u16) -> u16 {
    if entry::get(owners, name) == editor {
        return name;
    }
    0
}

// Sets to 0 each name that an editor does not own.
fn keep_own(owners: &[u16], editor: u16, names: &mut [u16]) {
    for name in names.iter_mut() {
        *name = own(owners, editor, *name);
    }
}

// Writes the region of each cell, 0 where it is not the editor's, and whether others are the same.
fn show_cells<W: Write>(
    out: &mut W,
    size: Size,
    owners: &[u16],
    editor: u16,
    regions: &[u16; 8192],
    others: &[u16; 8192],
) -> io::Result<()> {
    let mut own = *regions;
    let mut among = *others;
    keep_own(owners, editor, &mut own);
    keep_own(owners, editor, &mut among);
    let count = lent::cells(size.width, size.height);
    show::table(out, lent::part(&own, 0, count), true)?;
    show::same(out, entry::same(&own, &among))
}

// What the tables by name say of a region.
fn region_of(left: &Left, name: u16) -> Region {
    Region {
        present: entry::get(&left.tables.parent, name) != dart::MARK,
        cells: entry::get(&left.tables.cells, name),
        borders: entry::get(&left.tables.borders, name),
    }
}

// Writes what is said of a region, and whether the same is said among the other's calls; nothing where it is present neither time.
fn show_region<W: Write>(out: &mut W, name: u16, region: Region, among: Region) -> io::Result<()> {
    if region.present | among.present {
        show::text(out, b" ;")?;
        show::number(out, name)?;
        show::number(out, region.cells)?;
        show::number(out, region.borders)?;
        show::same(out, region == among)?;
    }
    Ok(())
}

// Writes what is said of each region that the editor owns.
fn show_regions<W: Write>(
    out: &mut W,
    size: Size,
    owners: &[u16],
    editor: u16,
    left: &Left,
    among: &Left,
) -> io::Result<()> {
    let count = lent::names(size.width, size.height);
    for name in 1..count {
        if entry::get(owners, name) == editor {
            show_region(out, name, region_of(left, name), region_of(among, name))?;
        }
    }
    Ok(())
}

// Makes the calls of one editor alone, and writes what they answer, and the cells and totals of the editor's regions after them;
// and of each whether it is so among the other's calls, given what those of both leave.
pub(crate) fn show<W: Write>(
    alloc: Global,
    out: &mut W,
    size: Size,
    sheet: &[u16],
    owners: &[u16],
    calls: &[u16],
    editor: u16,
    lengths: Lengths,
    among: &Left,
) -> io::Result<()> {
    show::text(out, b"alone")?;
    show::number(out, editor)?;
    let left = mixture::left_by(alloc, out, size, sheet, owners, calls, editor, lengths)?;
    show::same(
        out,
        same_replies(calls, editor, &left.replies, &among.replies),
    )?;
    show_cells(out, size, owners, editor, &left.regions, &among.regions)?;
    show_regions(out, size, owners, editor, &left, among)?;
    show::line_end(out)
}
