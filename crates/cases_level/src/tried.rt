use answer::Refusal;
use case_sheets::{lengths, lent, made};
use case_tables::tables::HeldWorks;
use case_tables::{show, tables};
use std::alloc::{AllocError, Global};
use std::io;
use std::io::Write;
use table_entries::entry;

// The width, the height and the level of a case.
#[derive(Clone, Copy)]
pub struct Case {
    pub width: u16,
    pub height: u16,
    pub level: u16,
}

// The three result tables of a level.
#[derive(Drop)]
pub struct Level {
    pub next: Vec<u16>,
    pub other: Vec<u16>,
    pub side: Vec<u16>,
}

impl Level {
    // Result tables of the first three lengths of a list, which no call has touched.
    fn untouched(alloc: Global, list: &[u16]) -> Result<Level, AllocError> {
        Ok(Level {
            next: vec![in alloc; lent::UNTOUCHED; lent::length(list, 0)]?,
            other: vec![in alloc; lent::UNTOUCHED; lent::length(list, 1)]?,
            side: vec![in alloc; lent::UNTOUCHED; lent::length(list, 2)]?,
        })
    }
}

// Draws a level of a sheet into result tables, with work tables.
fn draw(
    case: Case,
    sheet: &[u16],
    level: &mut Level,
    works: &mut HeldWorks,
) -> Result<(), Refusal> {
    level_call::draw::draw(
        case.width,
        case.height,
        case.level,
        sheet,
        &mut level.next,
        &mut level.other,
        &mut level.side,
        &mut works.a,
        &mut works.b,
        &mut works.c,
        &mut works.d,
    )
}

// Whether the result tables are as they were.
fn untouched(level: &Level) -> bool {
    tables::untouched(&level.next)
        & tables::untouched(&level.other)
        & tables::untouched(&level.side)
}

// The result tables of a level that was drawn, in full or their sums; of a refusal, whether they are as they were.
fn show_tables<W: Write>(
    out: &mut W,
    full: bool,
    answer: Result<(), Refusal>,
    level: &Level,
) -> io::Result<()> {
    if answer.is_err() {
        return show::kept(out, untouched(level));
    }
    show::table(out, &level.next, full)?;
    show::table(out, &level.other, full)?;
    show::table(out, &level.side, full)
}

// Writes what drawing a level answered.
fn show_drawn<W: Write>(
    out: &mut W,
    full: bool,
    answer: Result<(), Refusal>,
    level: &Level,
    works: &HeldWorks,
) -> io::Result<()> {
    show::text(out, b"level")?;
    show::number(out, answer::number(answer))?;
    show_tables(out, full, answer, level)?;
    tables::show_works(out, answer::number(answer), works.works())?;
    show::line_end(out)
}

// Draws the sheet of a case into tables of the lengths of a list.
fn draw_case<W: Write>(
    alloc: Global,
    out: &mut W,
    case: Case,
    sheet: &[u16],
    list: &[u16],
    full: bool,
) -> io::Result<()> {
    let mut level = Level::untouched(alloc, list)?;
    let mut works = HeldWorks::untouched(alloc, lengths::works(lent::from(list, 3)))?;
    let answer = draw(case, sheet, &mut level, &mut works);
    show_drawn(out, full, answer, &level, &works)
}

// Draws the sheet of a case into tables of slot length.
fn draw_slots<W: Write>(
    alloc: Global,
    out: &mut W,
    case: Case,
    sheet: &[u16],
    full: bool,
) -> io::Result<()> {
    let slots = lent::slots(case.width, case.height);
    let lengths = [slots; 7];
    draw_case(alloc, out, case, sheet, &lengths, full)
}

// Draws a sheet that is made by a rule.
fn draw_made<W: Write>(
    alloc: Global,
    out: &mut W,
    case: Case,
    kind: u8,
    values: &[u16],
) -> io::Result<()> {
    let mut sheet = made::room();
    let n = made::sheet(kind, case.width, case.height, values, &mut sheet);
    draw_slots(alloc, out, case, &sheet[..n], false)
}

// Runs a case.
pub(crate) fn run<W: Write>(
    alloc: Global,
    out: &mut W,
    kind: u8,
    values: &[u16],
) -> io::Result<()> {
    let case = Case {
        width: entry::get(values, 0),
        height: entry::get(values, 1),
        level: entry::get(values, 2),
    };
    let rest = lent::from(values, 3);
    match kind {
        b'T' => draw_slots(alloc, out, case, rest, true),
        b'L' => draw_case(alloc, out, case, lent::from(rest, 7), rest, true),
        _ => draw_made(alloc, out, case, kind, rest),
    }
}
