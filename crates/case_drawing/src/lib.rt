// The call of drawing, for the programs that run cases.
#![tactic(auto)]

use answer::Refusal;
use case_sheets::lengths::Size;
use case_tables::tables::{HeldTables, HeldWorks};

// Draws a sheet into seven tables, with work tables.
pub fn draw(
    size: Size,
    sheet: &[u16],
    tables: &mut HeldTables,
    works: &mut HeldWorks,
) -> Result<(), Refusal> {
    drawing::draw::draw(
        size.width,
        size.height,
        sheet,
        &mut tables.next1,
        &mut tables.side1,
        &mut tables.next3,
        &mut tables.other3,
        &mut tables.parent,
        &mut tables.cells,
        &mut tables.borders,
        &mut works.a,
        &mut works.b,
        &mut works.c,
        &mut works.d,
    )
}
