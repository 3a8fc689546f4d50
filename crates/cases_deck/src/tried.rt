ghost use Rattle.std.specs.Prelude.{◌≡◌, length};
ghost use Rattle.io.specs.Counts.{IsPrefixLen};

use case_files::text;
use case_sheets::lent;
use case_tables::show;
use deck_card::answer::{ReadRefusal, WriteRefusal, part_number, write_number};
use sheet_size::Size;
use std::io;
use std::io::Write;

// What a cell table holds before a call.
const UNTOUCHED: u16 = 7;

// One byte more than the longest deck, so that surplus bytes are seen.
fn dots() -> [u8; 11746]
    ensures { 11746 ≡ length result }
{
    [b'.'; 11746]
}

// One entry more than the reader's cell table.
fn untouched() -> [u16; 7921]
    ensures { 7921 ≡ length result }
{
    [UNTOUCHED; 7921]
}

// A length, or that of the bytes where it is more.
fn most_bytes(length: usize, bytes: &[u8]) -> usize
    ensures { IsPrefixLen result bytes.now }
{
    length.min(bytes.len())
}

// How many entries stand before the first 0.
fn used(cells: &[u16]) -> usize
    ensures { IsPrefixLen result cells.now }
{
    cells
        .iter()
        .position(|cell| *cell == 0)
        .unwrap_or(cells.len())
}

// Reads a deck into the first entries of a table.
fn read_into(deck: &[u8], length: usize, cells: &mut [u16]) -> Result<Size, ReadRefusal> {
    let n = lent::most(length, cells);
    deck_reading::read::read(deck, &mut cells[..n])
}

// Writes a sheet into the first of the bytes.
fn write_into(
    width: u16,
    height: u16,
    sheet: &[u16],
    length: usize,
    bytes: &mut [u8],
) -> Result<(), WriteRefusal> {
    let n = most_bytes(length, bytes);
    deck_writing::write::write(width, height, sheet, &mut bytes[..n])
}

// Whether the sheet's deck, written again, is the deck.
fn show_again<W: Write>(out: &mut W, size: Size, sheet: &[u16], deck: &[u8]) -> io::Result<()> {
    let mut again = dots();
    let answer = write_into(size.width, size.height, sheet, deck.len(), &mut again);
    show::number(out, write_number(answer))?;
    let n = most_bytes(deck.len(), &again);
    show::kept(out, check::same(&again[..n], deck))
}

// The labels of a sheet that was read, whether the rest of the table is 0, and whether its deck is the same again.
fn show_sheet<W: Write>(out: &mut W, size: Size, cells: &[u16], deck: &[u8]) -> io::Result<()> {
    let n = used(cells);
    let sheet = &cells[..n];
    show::numbers(out, sheet)?;
    show::kept(out, lent::all_are(&cells[n..], 0))?;
    show_again(out, size, sheet, deck)
}

// What reading answered, and what the table holds.
fn show_answer<W: Write>(
    out: &mut W,
    answer: Result<Size, ReadRefusal>,
    deck: &[u8],
    cells: &[u16],
) -> io::Result<()> {
    match answer {
        Ok(size) => {
            show::number(out, 0)?;
            show::number(out, size.width)?;
            show::number(out, size.height)?;
            show_sheet(out, size, cells, deck)?;
        }
        Err(refusal) => {
            show::number(out, u16::from(refusal.fault))?;
            show::number(out, refusal.card)?;
            show::kept(out, lent::all_are(cells, UNTOUCHED))?;
        }
    }
    show::line_end(out)
}

// Reads a deck into a table of a length, and writes what is answered.
fn read_deck<W: Write>(out: &mut W, deck: &[u8], length: usize) -> io::Result<()> {
    let mut cells = untouched();
    let answer = read_into(deck, length, &mut cells);
    let n = lent::most(length, &cells);
    show_answer(out, answer, deck, &cells[..n])
}

// Reads the bytes of a case into a table of a length.
pub(crate) fn read<W: Write>(out: &mut W, line: &[u8], length: usize) -> io::Result<()> {
    let mut bytes = dots();
    let n = text::decode(line, &mut bytes);
    show::text(out, b"read")?;
    read_deck(out, &bytes[..n], length)
}

// The part of a card that holds its cells.
fn show_part<W: Write>(out: &mut W, width: u16, card: &[u8]) -> io::Result<()> {
    show::number(out, part_number(deck_card::card::part_refusal(width, card)))?;
    show::numbers(out, deck_card::card::part(width, card))?;
    show::line_end(out)
}

// The part of a case's bytes.
pub(crate) fn part<W: Write>(out: &mut W, line: &[u8], width: u16) -> io::Result<()> {
    let mut bytes = dots();
    let n = text::decode(line, &mut bytes);
    show::text(out, b"part")?;
    show_part(out, width, &bytes[..n])
}

// What writing answered, and the bytes.
fn show_written<W: Write>(
    out: &mut W,
    width: u16,
    height: u16,
    sheet: &[u16],
    length: usize,
) -> io::Result<()> {
    let mut bytes = dots();
    let answer = write_into(width, height, sheet, length, &mut bytes);
    show::number(out, write_number(answer))?;
    show::line_end(out)?;
    let n = most_bytes(length, &bytes);
    show::text(out, &bytes[..n])?;
    show::line_end(out)
}

// Writes a sheet.
fn write_sheet<W: Write>(
    out: &mut W,
    width: u32,
    height: u32,
    length: u32,
    line: &[u8],
) -> io::Result<()> {
    let mut sheet = untouched();
    let n = text::numbers(line, &mut sheet);
    show::text(out, b"write")?;
    show_written(
        out,
        (width % 65536) as u16,
        (height % 65536) as u16,
        &sheet[..n],
        length as usize,
    )
}

// Writes the sheet of a case, whose width is known.
pub(crate) fn write<W: Write>(out: &mut W, line: &[u8], width: u32) -> io::Result<()> {
    let height = text::number(line, 0);
    let rest = text::after(line, height.next);
    let length = text::number(rest, 0);
    write_sheet(
        out,
        width,
        height.value,
        length.value,
        text::after(rest, length.next),
    )
}
