// Lists the sheet of the deck on standard input: a line for the sheet, then a line for each region and for each edge of
// level 3. A deck that is refused is answered by one line, with the number of the refusal and of the card.
// Tables, deck and page are arrays: the listing takes no memory but its stack, and no table of it can fail to be made.
#![tactic(auto)]

mod lines;
mod page;

ghost use Rattle.std.specs.Prelude.{◌≡◌, ◌*◌, ◌≤◌, length, IfOk};
ghost use Rattle.sheet_size.specs.Size.{widest, tallest};
ghost use Rattle.point_darts.specs.Dart.{slots};
ghost use Rattle.listing.specs.Room.{room};

use answer::Refusal;
use count_turns::turns;
use deck_card::card::LONG;
use deck_reading::read::CELLS;
use page::Page;
use point_darts::dart;
use sheet_size::{Size, TALLEST, WIDEST};
use std::io;
use std::io::{Input, Write};

// The most slots of darts of a sheet, which are more than its names.
const SLOTS: usize = 4 * (WIDEST as usize + 1) * (TALLEST as usize + 1);

// The bytes of the longest deck, which has two cards a row, and one more, so that bytes after its last card are seen.
const BYTES: usize = LONG * (2 * TALLEST as usize + 1) + 1;

// The seven tables of a drawing, each with room for the largest.
#[derive(Clone, Copy)]
struct Tables {
    next1: [u16; SLOTS],
    side1: [u16; SLOTS],
    next3: [u16; SLOTS],
    other3: [u16; SLOTS],
    parent: [u16; SLOTS],
    cells: [u16; SLOTS],
    borders: [u16; SLOTS],
}

// The depth and the hole count of each name.
#[derive(Clone, Copy)]
struct Counted {
    depths: [u16; SLOTS],
    holes: [u16; SLOTS],
}

// The right turns and the left turns of each dart of level 3.
#[derive(Clone, Copy)]
struct Turned {
    right: [u16; SLOTS],
    left: [u16; SLOTS],
}

// How many cells a sheet has.
#[tactic(auto, using(point_darts::proofs::Fit::cells_fit))]
fn cells_of(size: Size) -> usize
    ensures { (result ≡ size.width * size.height) × (result ≤ widest * tallest) }
{
    (size.width * size.height) as usize
}

// How many slots of darts a sheet has.
fn slots_of(size: Size) -> usize
    ensures { (result ≡ slots size.width size.height) × (result ≤ room) }
{
    dart::slots(size) as usize
}

// Draws a sheet. One that was read is not refused; were it, the tables would be no drawing.
fn draw(size: Size, sheet: &[u16]) -> Tables {
    let slots = slots_of(size);
    let names = cells_of(size) + 1;
    let mut tables = Tables {
        next1: [0; SLOTS],
        side1: [0; SLOTS],
        next3: [0; SLOTS],
        other3: [0; SLOTS],
        parent: [0; SLOTS],
        cells: [0; SLOTS],
        borders: [0; SLOTS],
    };
    let mut a = [0u16; SLOTS];
    let mut b = [0u16; SLOTS];
    let mut c = [0u16; SLOTS];
    let mut d = [0u16; SLOTS];
    let _ = drawing::draw::draw(
        size.width,
        size.height,
        sheet,
        &mut tables.next1[..slots],
        &mut tables.side1[..slots],
        &mut tables.next3[..slots],
        &mut tables.other3[..slots],
        &mut tables.parent[..names],
        &mut tables.cells[..names],
        &mut tables.borders[..names],
        &mut a[..slots],
        &mut b[..slots],
        &mut c[..slots],
        &mut d[..slots],
    );
    tables
}

// Counts the depths and holes of a drawing, or says why the counts refuse it.
fn count(size: Size, tables: &Tables) -> Result<Counted, Refusal> {
    let slots = slots_of(size);
    let names = cells_of(size) + 1;
    let mut depths = [0u16; SLOTS];
    let mut holes = [0u16; SLOTS];
    let mut a = [0u16; SLOTS];
    let mut b = [0u16; SLOTS];
    let mut c = [0u16; SLOTS];
    let mut d = [0u16; SLOTS];
    count_call::count::counts(
        size.width,
        size.height,
        &tables.next1[..slots],
        &tables.side1[..slots],
        &tables.next3[..slots],
        &tables.other3[..slots],
        &tables.parent[..names],
        &tables.cells[..names],
        &tables.borders[..names],
        &mut depths[..names],
        &mut holes[..names],
        &mut a[..slots],
        &mut b[..slots],
        &mut c[..slots],
        &mut d[..slots],
    )?;
    Ok(Counted { depths, holes })
}

// Counts the turns of the curves of a drawing.
fn turn(size: Size, tables: &Tables) -> Turned {
    let slots = slots_of(size);
    let mut right = [0u16; SLOTS];
    let mut left = [0u16; SLOTS];
    turns::all_turns(
        size,
        &tables.next1[..slots],
        &tables.next3[..slots],
        &tables.other3[..slots],
        &mut right[..slots],
        &mut left[..slots],
    );
    Turned { right, left }
}

// Lists a sheet. One that was read is not refused; were it, there would be no listing.
fn list_sheet<W: Write>(out: &mut W, size: Size, sheet: &[u16]) -> io::Result<()> {
    let slots = slots_of(size);
    let names = cells_of(size) + 1;
    let tables = draw(size, sheet);
    let Ok(counted) = count(size, &tables) else {
        return Ok(());
    };
    let turned = turn(size, &tables);
    lines::listing(
        out,
        size,
        sheet,
        &tables.parent[..names],
        &counted.depths[..names],
        &counted.holes[..names],
        &tables.other3[..slots],
        &tables.side1[..slots],
        &turned.right[..slots],
        &turned.left[..slots],
    )
}

// Lists the sheet of a deck, or says why the deck is refused.
fn list_deck<W: Write>(out: &mut W, deck: &[u8]) -> io::Result<()> {
    let mut cells = [0u16; CELLS];
    match deck_reading::read::read(deck, &mut cells) {
        Ok(size) => list_sheet(out, size, &cells[..cells_of(size)]),
        Err(refusal) => lines::refused(out, refusal.fault.into(), refusal.card),
    }
}

// Reads bytes until there is no more room, or no more of them, and answers how many there are.
fn read_full<R: io::Read>(from: &mut R, bytes: &mut [u8]) -> io::Result<usize>
    ensures { IfOk result (λ n. n ≤ length bytes.new) }
{
    let mut n = 0;
    while n < bytes.len() {
        let more = from.read(&mut bytes[n..])?;
        if more == 0 {
            return Ok(n);
        }
        n += more;
    }
    Ok(n)
}

fn main(rt: HostRuntime) -> io::Result<()> {
    let mut bytes = [0u8; BYTES];
    let n = read_full(&mut rt.reader(), &mut bytes)?;
    list_deck(&mut io::writer(&rt), &bytes[..n])
}
