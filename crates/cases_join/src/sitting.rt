ghost use Rattle.std.specs.Prelude.{◌+◌, ◌≤◌, ◌<◌, IfOk};

use crate::one;
use answer::Refusal;
use case_sheets::lengths::{Lengths, Size};
use case_sheets::lent;
use case_tables::tables::{HeldTables, HeldWorks};
use case_tables::{show, tables};
use point_darts::dart;
use point_darts::dart::Dart;
use std::alloc::{AllocError, Global};
use std::io;
use std::io::Write;
use table_entries::entry;

// How a sitting goes: after how many joins each the tables are compared, and how far it is from a dart to the next.
#[derive(Clone, Copy)]
pub struct Pace {
    pub every: u16,
    pub stride: u16,
}

// The names on the two sides of a dart.
#[derive(Clone, Copy)]
pub struct Sides {
    pub right: u16,
    pub left: u16,
}

// The names on the two sides of a dart; twice the outside's where it is none of level 1.
fn sides_of(size: Size, side1: &[u16], number: u16) -> Sides {
    let right = entry::get(side1, number);
    if right == dart::MARK {
        return Sides { right: 0, left: 0 };
    }
    let dart = Dart { number };
    let back = dart.reversal(size.width, size.height);
    Sides {
        right,
        left: entry::get(side1, back.number),
    }
}

// Whether regions lie on both sides.
fn are_regions(sides: Sides) -> bool {
    sides.right != 0 && sides.left != 0
}

// The smaller of the names on the two sides, for a name that is one of them; any other name.
fn lowered(name: u16, sides: Sides) -> u16 {
    if name == sides.right || name == sides.left {
        return sides.right.min(sides.left);
    }
    name
}

// Lowers the names of the cells as a join does.
fn lower(sides: Sides, names: &mut [u16]) {
    for name in names.iter_mut() {
        *name = lowered(*name, sides);
    }
}

// How many names have a parent.
fn regions_left(parent: &[u16]) -> u16 {
    let count = parent.iter().filter(|name| **name != dart::MARK).count();
    count.min(65535) as u16
}

// The tables of these lengths that drawing a sheet leaves.
pub(crate) fn drawn(
    alloc: Global,
    size: Size,
    sheet: &[u16],
    lengths: Lengths,
) -> Result<HeldTables, AllocError> {
    let mut tables = HeldTables::untouched(alloc, lengths)?;
    let mut works = HeldWorks::untouched(alloc, lengths.works)?;
    let _ = case_drawing::draw(size, sheet, &mut tables, &mut works);
    Ok(tables)
}

// Writes how a sitting stands: how many joins were done, how many regions are left, whether the tables are those drawn
// afresh, and their sums.
fn show_standing<W: Write>(
    alloc: Global,
    out: &mut W,
    size: Size,
    lengths: Lengths,
    names: &[u16],
    done: u64,
    tables: &HeldTables,
) -> io::Result<()> {
    let left = regions_left(&tables.parent);
    show::text(out, b"\nsitting")?;
    show::number(out, done)?;
    show::number(out, left)?;
    show::same(out, *tables == drawn(alloc, size, names, lengths)?)?;
    tables::show(out, tables.tables(), false)
}

// Whether a join was done, and so many joins are a multiple of a number.
fn is_due(answer: Result<(), Refusal>, done: u64, every: u16) -> bool {
    answer.is_ok() && every != 0 && done % every as u64 == 0
}

// How many joins were done after one more, which lowers the names of the cells; a refusal is written.
fn counted_on<W: Write>(
    out: &mut W,
    answer: Result<(), Refusal>,
    sides: Sides,
    names: &mut [u16],
    done: u64,
) -> io::Result<u64>
    requires { done < 4294967296 }
    ensures { IfOk result (λ count. count ≤ done + 1) }
{
    if answer.is_err() {
        show::text(out, b"\nrefused")?;
        show::number(out, answer::number(answer))?;
        return Ok(done);
    }
    lower(sides, names);
    Ok(done + 1)
}

// The slot so many numbers after a slot, round the end.
fn stride_on(number: u16, stride: u16, slots: u16) -> u16 {
    if slots == 0 {
        return 0;
    }
    ((number as u32 + stride as u32) % slots as u32 % 65536) as u16
}

// A sitting over a drawing: every slot is visited, each a stride after the one before, and the regions on the two sides
// of its dart are joined.
pub(crate) fn sit<W: Write>(
    alloc: Global,
    out: &mut W,
    size: Size,
    lengths: Lengths,
    pace: Pace,
    names: &mut [u16],
    tables: &mut HeldTables,
) -> io::Result<()> {
    let slots = lent::slots(size.width, size.height);
    let mut done: u64 = 0;
    let mut number: u16 = 0;
    for _ in 0..slots {
        let sides = sides_of(size, &tables.side1, number);
        number = stride_on(number, pace.stride, slots);
        if are_regions(sides) {
            let mut works = HeldWorks::untouched(alloc, lengths.works)?;
            let answer = one::join(size, sides.right, sides.left, tables, &mut works);
            done = counted_on(out, answer, sides, names, done)?;
            if is_due(answer, done, pace.every) {
                show_standing(alloc, out, size, lengths, names, done, tables)?;
            }
        }
    }
    show_standing(alloc, out, size, lengths, names, done, tables)
}
