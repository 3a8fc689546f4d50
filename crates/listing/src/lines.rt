// The lines of a listing.
ghost use Rattle.std.specs.Prelude.{◌≡◌, not, ◌==◌, min, length, count_by};
ghost use Rattle.point_darts.specs.Dart.{mark};

use crate::page::Page;
use point_darts::dart::MARK;
use sheet_size::Size;
use std::io;
use std::io::Write;
use table_entries::entry;

// How many entries of a table are not the mark.
#[tactic(auto, unfolding(point_darts::specs::Dart::mark))]
fn entries(table: &[u16]) -> usize
    ensures { result ≡ count_by (λ entry. not (entry == mark)) table.now }
{
    table.iter().filter(|entry| **entry != MARK).count()
}

// A table's length, or the mark where it is more.
#[tactic(auto, unfolding(point_darts::specs::Dart::mark))]
fn length_of(table: &[u16]) -> u16
    ensures { result ≡ min (length table.now) mark }
{
    table.len().min(MARK as usize) as u16
}

// The line of a refusal.
pub(crate) fn refused<W: Write>(out: &mut W, number: u16, card: u16) -> io::Result<()> {
    let mut page = Page::new();
    page.text(out, b"REFUSED")?;
    page.number(out, number as u64)?;
    page.text(out, b" CARD")?;
    page.number(out, card as u64)?;
    page.byte(out, b'\n')?;
    page.write_out(out)
}

// The lines of the regions, by name: of each name that is in use its label as a byte, its parent, its depth and its holes.
fn regions<W: Write>(
    out: &mut W,
    page: &mut Page,
    sheet: &[u16],
    parent: &[u16],
    depths: &[u16],
    holes: &[u16],
) -> io::Result<()> {
    for i in 0..length_of(sheet) {
        let name = i + 1;
        let up = entry::get(parent, name);
        if up != MARK {
            page.byte(out, b'R')?;
            page.number(out, name as u64)?;
            page.byte(out, b' ')?;
            page.byte(out, (entry::get(sheet, i) % 256) as u8)?;
            page.number(out, up as u64)?;
            page.number(out, entry::get(depths, name) as u64)?;
            page.number(out, entry::get(holes, name) as u64)?;
            page.byte(out, b'\n')?;
        }
    }
    Ok(())
}

// The lines of the edges of level 3, by their smaller dart: that dart, the other, the sides of the two, and the right turns and the
// left turns from the smaller.
fn curves<W: Write>(
    out: &mut W,
    page: &mut Page,
    other3: &[u16],
    side1: &[u16],
    right: &[u16],
    left: &[u16],
) -> io::Result<()> {
    for dart in 0..length_of(other3) {
        let other = entry::get(other3, dart);
        if other != MARK && dart <= other {
            page.byte(out, b'C')?;
            page.number(out, dart as u64)?;
            page.number(out, other as u64)?;
            page.number(out, entry::get(side1, dart) as u64)?;
            page.number(out, entry::get(side1, other) as u64)?;
            page.number(out, entry::get(right, dart) as u64)?;
            page.number(out, entry::get(left, dart) as u64)?;
            page.byte(out, b'\n')?;
        }
    }
    Ok(())
}

// The listing of a drawn sheet: the line of the sheet, with its size, how many regions it has, and how many edges there are at
// level 3, then those of the regions and of the edges. An edge has two darts.
pub(crate) fn listing<W: Write>(
    out: &mut W,
    size: Size,
    sheet: &[u16],
    parent: &[u16],
    depths: &[u16],
    holes: &[u16],
    other3: &[u16],
    side1: &[u16],
    right: &[u16],
    left: &[u16],
) -> io::Result<()> {
    let mut page = Page::new();
    page.text(out, b"SHEET")?;
    page.number(out, size.width as u64)?;
    page.number(out, size.height as u64)?;
    page.text(out, b" REGIONS")?;
    page.number(out, entries(parent) as u64)?;
    page.text(out, b" CURVES")?;
    page.number(out, (entries(other3) / 2) as u64)?;
    page.byte(out, b'\n')?;
    regions(out, &mut page, sheet, parent, depths, holes)?;
    curves(out, &mut page, other3, side1, right, left)?;
    page.write_out(out)
}
