ghost use Rattle.std.specs.Prelude.{◌≡◌, ◌≤◌, ◌<◌, length};

use crate::one::Call;
use crate::{one, started};
use case_sheets::lengths::{Lengths, Size, WorkLengths};
use case_sheets::{lent, made};
use case_tables::tables;
use case_tables::tables::HeldTables;
use point_darts::dart;
use point_darts::dart::Dart;
use std::alloc::Global;
use std::io;
use std::io::Write;
use table_entries::entry;

// In place of an editor's number: the calls of both, and those with any other number.
pub const ALL: u16 = 0;

// What some calls leave: the reply to each at its place, the region of each cell, and the tables.
#[derive(Drop)]
pub struct Left {
    pub replies: [u16; 8192],
    pub regions: [u16; 8192],
    pub tables: HeldTables,
}

// How many calls a list has, at most 20,000.
pub(crate) fn count_of(calls: &[u16]) -> u16
    ensures { result ≤ 20000 }
{
    (calls.len() / 3).min(20000) as u16
}

// The call at a place of a list: an editor and two names.
pub(crate) fn call_at(calls: &[u16], place: u16) -> Call
    requires { place < 20000 }
{
    Call {
        editor: entry::get(calls, 3 * place),
        first: entry::get(calls, 3 * place + 1),
        second: entry::get(calls, 3 * place + 2),
    }
}

// Whether a call of an editor's is one of those that are made.
fn is_made(editor: u16, whose: u16) -> bool {
    whose == ALL || editor == whose
}

// Makes the calls of one editor, or all of a list, one after another in a drawing, and writes what each answers. The replies come
// to stand at the places of their calls.
fn make<W: Write>(
    alloc: Global,
    out: &mut W,
    size: Size,
    owners: &[u16],
    calls: &[u16],
    whose: u16,
    lengths: WorkLengths,
    tables: &mut HeldTables,
    replies: &mut [u16],
) -> io::Result<()> {
    let count = count_of(calls);
    for place in 0..count {
        let call = call_at(calls, place);
        if is_made(call.editor, whose) {
            let number = one::join_shown(alloc, out, size, owners, call, lengths, tables)?;
            entry::put(replies, place, number);
        }
    }
    Ok(())
}

// The dart that goes north along the left line of a cell.
fn along_left(width: u16, cell: u16) -> Dart {
    if width == 0 {
        return Dart { number: dart::MARK };
    }
    let row = cell as u32 / width as u32 % 65536;
    let point = cell as u32 + row + width as u32 + 1;
    Dart::new((point % 65536) as u16, Dart::NORTH)
}

// The region of a cell: that on the right of the dart along its left line, or, where no line parts them, that of the cell to the
// left.
fn region_at(width: u16, side1: &[u16], cell: u16, left: u16) -> u16 {
    let region = entry::get(side1, along_left(width, cell).number);
    if region == dart::MARK {
        return left;
    }
    region
}

// Sets each cell's entry to its region.
fn set_regions(size: Size, side1: &[u16], regions: &mut [u16]) {
    let count = lent::names(size.width, size.height);
    let mut region = dart::MARK;
    for name in 1..count {
        let cell = name - 1;
        region = region_at(size.width, side1, cell, region);
        entry::put(regions, cell, region);
    }
}

// The region of each cell.
fn regions_of(size: Size, side1: &[u16]) -> [u16; 8192]
    ensures { 8192 ≡ length result }
{
    let mut regions = made::room();
    set_regions(size, side1, &mut regions);
    regions
}

// Makes the calls of one editor, or all of a list, in a drawing that is started, and writes what each answers; where all are made
// also the tables after them. Gives what they leave.
pub(crate) fn left_by<W: Write>(
    alloc: Global,
    out: &mut W,
    size: Size,
    sheet: &[u16],
    owners: &[u16],
    calls: &[u16],
    whose: u16,
    lengths: Lengths,
) -> io::Result<Left> {
    let mut replies = made::room();
    let mut tables = started::tables(alloc, size, sheet, owners, lengths)?;
    make(
        alloc,
        out,
        size,
        owners,
        calls,
        whose,
        lengths.works,
        &mut tables,
        &mut replies,
    )?;
    if whose == ALL {
        tables::show(out, tables.tables(), true)?;
    }
    let regions = regions_of(size, &tables.side1);
    Ok(Left {
        replies,
        regions,
        tables,
    })
}
