// Drawing a sheet: one level, or the whole drawing. C lends each table by itself.
ghost use Rattle.std.specs.Prelude.{◌≡◌, [], ◌∷◌};
ghost use Rattle.paper.specs.Refusal.{ended, levelled, seven, mapped};
ghost use Rattle.table_lengths.specs.Given.{tables, works};

// Draws a level of a sheet: next, other and side. Refusals 1, 2, 3 and 4.
#[unsafe(no_mangle)]
pub extern "C" fn raimenolta_level(
    width: u16,
    height: u16,
    level: u16,
    sheet: &[u16],
    next: &mut [u16],
    other: &mut [u16],
    side: &mut [u16],
    work_a: &mut [u16],
    work_b: &mut [u16],
    work_c: &mut [u16],
    work_d: &mut [u16],
) -> u16
    ensures { ended result [] (next.new ∷ other.new ∷ side.new ∷ [])
        (works work_a.new work_b.new work_c.new work_d.new) ≡
        levelled width height level sheet.now
        (next.old ∷ other.old ∷ side.old ∷ [])
        (works work_a.old work_b.old work_c.old work_d.old) }
{
    let answer = level_call::draw::draw(
        width, height, level, sheet, next, other, side, work_a, work_b, work_c, work_d,
    );
    answer::number(answer)
}

// Draws a sheet: its seven tables. Refusals 1, 3 and 4.
#[unsafe(no_mangle)]
pub extern "C" fn raimenolta_draw(
    width: u16,
    height: u16,
    sheet: &[u16],
    next1: &mut [u16],
    side1: &mut [u16],
    next3: &mut [u16],
    other3: &mut [u16],
    parent: &mut [u16],
    cells: &mut [u16],
    borders: &mut [u16],
    work_a: &mut [u16],
    work_b: &mut [u16],
    work_c: &mut [u16],
    work_d: &mut [u16],
) -> u16
    ensures { ended result []
        (seven
        (tables next1.new side1.new next3.new other3.new parent.new
        cells.new borders.new))
        (works work_a.new work_b.new work_c.new work_d.new) ≡
        mapped width height sheet.now
        (tables next1.old side1.old next3.old other3.old parent.old
        cells.old borders.old)
        (works work_a.old work_b.old work_c.old work_d.old) }
{
    let drawn = drawing::draw::draw(
        width, height, sheet, next1, side1, next3, other3, parent, cells, borders, work_a, work_b,
        work_c, work_d,
    );
    answer::number(drawn)
}
