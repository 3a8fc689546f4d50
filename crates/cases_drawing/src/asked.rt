use answer::Refusal;
use case_sheets::lengths::{Size, WorkLengths};
use case_sheets::lent;
use case_tables::tables::{HeldTables, HeldWorks};
use case_tables::{show, tables};
use check_call::check;
use count_call::{count, turns};
use point_darts::dart;
use std::alloc::Global;
use std::io;
use std::io::Write;

// Asks the check of seven tables, with work tables.
fn check_of(size: Size, tables: &HeldTables, works: &mut HeldWorks) -> Result<(), Refusal> {
    check::check(
        size.width,
        size.height,
        &tables.next1,
        &tables.side1,
        &tables.next3,
        &tables.other3,
        &tables.parent,
        &tables.cells,
        &tables.borders,
        &mut works.a,
        &mut works.b,
        &mut works.c,
        &mut works.d,
    )
}

// Writes how the work tables are left, and ends the line.
fn show_end<W: Write, T: Copy>(
    out: &mut W,
    answer: Result<T, Refusal>,
    works: &HeldWorks,
) -> io::Result<()> {
    tables::show_works(out, answer::number(answer), works.works())?;
    show::line_end(out)
}

// What the check answers, with work tables of these lengths.
pub(crate) fn check<W: Write>(
    alloc: Global,
    out: &mut W,
    size: Size,
    lengths: WorkLengths,
    tables: &HeldTables,
) -> io::Result<()> {
    let mut works = HeldWorks::untouched(alloc, lengths)?;
    let answer = check_of(size, tables, &mut works);
    show::text(out, b"check")?;
    show::number(out, answer::number(answer))?;
    show_end(out, answer, &works)
}

// Writes each name, or dart, with its entries of two tables, where it has them.
fn show_each<W: Write>(out: &mut W, first: &[u16], second: &[u16]) -> io::Result<()> {
    for (i, (first, second)) in first.iter().zip(second).enumerate() {
        show_one(out, (i % 65536) as u16, *first, *second)?;
    }
    Ok(())
}

// Writes a name, or a dart, and its two entries, where they are not the mark.
fn show_one<W: Write>(out: &mut W, place: u16, first: u16, second: u16) -> io::Result<()> {
    if first == dart::MARK && second == dart::MARK {
        return Ok(());
    }
    write!(out, " {place} {first} {second}")
}

// Counts all names of seven tables into two tables, with work tables. Each call is asked in a function of its own: a call passed as
// a parameter may have 12 arguments, and these have more.
fn counts_of(
    size: Size,
    tables: &HeldTables,
    depths: &mut [u16],
    holes: &mut [u16],
    works: &mut HeldWorks,
) -> Result<(), Refusal> {
    count::counts(
        size.width,
        size.height,
        &tables.next1,
        &tables.side1,
        &tables.next3,
        &tables.other3,
        &tables.parent,
        &tables.cells,
        &tables.borders,
        depths,
        holes,
        &mut works.a,
        &mut works.b,
        &mut works.c,
        &mut works.d,
    )
}

// Two tables that were filled, in full or by their sums; of a refusal, whether the two are as they were.
fn show_filled<W: Write>(
    out: &mut W,
    full: bool,
    answer: Result<(), Refusal>,
    first: &[u16],
    second: &[u16],
) -> io::Result<()> {
    if answer.is_err() {
        show::kept(out, tables::untouched(first))?;
        return show::kept(out, tables::untouched(second));
    }
    if full {
        return show_each(out, first, second);
    }
    show::table(out, first, false)?;
    show::table(out, second, false)
}

// What the counts of all names answer, in two tables of a length each, with work tables of these lengths.
pub(crate) fn counts<W: Write>(
    alloc: Global,
    out: &mut W,
    size: Size,
    full: bool,
    m: usize,
    h: usize,
    lengths: WorkLengths,
    tables: &HeldTables,
) -> io::Result<()> {
    let mut depths = vec![in alloc; lent::UNTOUCHED; m]?;
    let mut holes = vec![in alloc; lent::UNTOUCHED; h]?;
    let mut works = HeldWorks::untouched(alloc, lengths)?;
    let answer = counts_of(size, tables, &mut depths, &mut holes, &mut works);
    show::text(out, b"counts")?;
    show::number(out, answer::number(answer))?;
    show_filled(out, full, answer, &depths, &holes)?;
    show_end(out, answer, &works)
}

// Counts the turns of the curves of seven tables into two tables, with work tables.
fn turns_of(
    size: Size,
    tables: &HeldTables,
    right: &mut [u16],
    left: &mut [u16],
    works: &mut HeldWorks,
) -> Result<(), Refusal> {
    turns::turns(
        size.width,
        size.height,
        &tables.next1,
        &tables.side1,
        &tables.next3,
        &tables.other3,
        &tables.parent,
        &tables.cells,
        &tables.borders,
        right,
        left,
        &mut works.a,
        &mut works.b,
        &mut works.c,
        &mut works.d,
    )
}

// What the turns of the curves answer: each dart of level 3 with its right turns and its left turns, in two tables as long as that
// of level 1 next, with work tables of these lengths.
pub(crate) fn turns<W: Write>(
    alloc: Global,
    out: &mut W,
    size: Size,
    lengths: WorkLengths,
    tables: &HeldTables,
) -> io::Result<()> {
    let n = tables.next1.len();
    let mut right = vec![in alloc; lent::UNTOUCHED; n]?;
    let mut left = vec![in alloc; lent::UNTOUCHED; n]?;
    let mut works = HeldWorks::untouched(alloc, lengths)?;
    let answer = turns_of(size, tables, &mut right, &mut left, &mut works);
    show::text(out, b"turns")?;
    show::number(out, answer::number(answer))?;
    show_filled(out, true, answer, &right, &left)?;
    show_end(out, answer, &works)
}

// Asks for the depth of a name in seven tables, with work tables.
fn depth_of(
    size: Size,
    name: u16,
    tables: &HeldTables,
    works: &mut HeldWorks,
) -> Result<u16, Refusal> {
    count::depth(
        size.width,
        size.height,
        &tables.next1,
        &tables.side1,
        &tables.next3,
        &tables.other3,
        &tables.parent,
        &tables.cells,
        &tables.borders,
        name,
        &mut works.a,
        &mut works.b,
        &mut works.c,
        &mut works.d,
    )
}

// Asks for the hole count of a name in seven tables, with work tables.
fn holes_of(
    size: Size,
    name: u16,
    tables: &HeldTables,
    works: &mut HeldWorks,
) -> Result<u16, Refusal> {
    count::holes(
        size.width,
        size.height,
        &tables.next1,
        &tables.side1,
        &tables.next3,
        &tables.other3,
        &tables.parent,
        &tables.cells,
        &tables.borders,
        name,
        &mut works.a,
        &mut works.b,
        &mut works.c,
        &mut works.d,
    )
}

// Writes the number of an answer, the count where there is one, and how the work tables are left.
fn show_counted<W: Write>(
    out: &mut W,
    answer: Result<u16, Refusal>,
    works: &HeldWorks,
) -> io::Result<()> {
    show::number(out, answer::number(answer))?;
    if let Ok(count) = answer {
        show::number(out, count)?;
    }
    show_end(out, answer, works)
}

// What the depth of a name answers, with work tables of these lengths.
pub(crate) fn depth<W: Write>(
    alloc: Global,
    out: &mut W,
    size: Size,
    name: u16,
    lengths: WorkLengths,
    tables: &HeldTables,
) -> io::Result<()> {
    let mut works = HeldWorks::untouched(alloc, lengths)?;
    let answer = depth_of(size, name, tables, &mut works);
    show::text(out, b"depth")?;
    show_counted(out, answer, &works)
}

// What the hole count of a name answers, with work tables of these lengths.
pub(crate) fn holes<W: Write>(
    alloc: Global,
    out: &mut W,
    size: Size,
    name: u16,
    lengths: WorkLengths,
    tables: &HeldTables,
) -> io::Result<()> {
    let mut works = HeldWorks::untouched(alloc, lengths)?;
    let answer = holes_of(size, name, tables, &mut works);
    show::text(out, b"holes")?;
    show_counted(out, answer, &works)
}

// Writes a name with its depth and its hole count, each asked for with work tables of these lengths, where it has them.
fn name<W: Write>(
    alloc: Global,
    out: &mut W,
    size: Size,
    name: u16,
    lengths: WorkLengths,
    tables: &HeldTables,
) -> io::Result<()> {
    let depth = depth_of(
        size,
        name,
        tables,
        &mut HeldWorks::untouched(alloc, lengths)?,
    );
    let holes = holes_of(
        size,
        name,
        tables,
        &mut HeldWorks::untouched(alloc, lengths)?,
    );
    show_one(
        out,
        name,
        depth.unwrap_or(dart::MARK),
        holes.unwrap_or(dart::MARK),
    )
}

// Writes each name that has a depth and a hole count, asked for one by one.
pub(crate) fn names<W: Write>(
    alloc: Global,
    out: &mut W,
    size: Size,
    lengths: WorkLengths,
    tables: &HeldTables,
) -> io::Result<()> {
    show::text(out, b"names")?;
    for i in 0..lent::names(size.width, size.height) {
        name(alloc, out, size, i, lengths, tables)?;
    }
    show::line_end(out)
}
