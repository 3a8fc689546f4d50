// Two editors at one sheet: starting a drawing with owners, and joining as one of the editors.
// C lends each table by itself, so functions that differ in one call have much the same text.
ghost use Rattle.std.specs.Prelude.{◌≡◌, []};
ghost use Rattle.paper.specs.Refusal.{ended, seven};
ghost use Rattle.paper.specs.Editor.{started, call, edited};
ghost use Rattle.table_lengths.specs.Given.{tables, works};
ghost use Rattle.join_call.specs.Faithful.{Faithful};

// Starts a drawing that two editors will share: draws a sheet, once every name has an owner, 1 or 2. Refusals 1, 3, 4 and 11.
#[unsafe(no_mangle)]
pub extern "C" fn raimenolta_start(
    width: u16,
    height: u16,
    sheet: &[u16],
    owners: &[u16],
    next1: &mut [u16],
    side1: &mut [u16],
    next3: &mut [u16],
    other3: &mut [u16],
    parent: &mut [u16],
    cells: &mut [u16],
    borders: &mut [u16],
    work_a: &mut [u16],
    work_b: &mut [u16],
    work_c: &mut [u16],
    work_d: &mut [u16],
) -> u16
    ensures { ended result []
        (seven
        (tables next1.new side1.new next3.new other3.new parent.new
        cells.new borders.new))
        (works work_a.new work_b.new work_c.new work_d.new) ≡
        started width height sheet.now owners.now
        (tables next1.old side1.old next3.old other3.old parent.old
        cells.old borders.old)
        (works work_a.old work_b.old work_c.old work_d.old) }
{
    let started = editor_call::start::start(
        width, height, sheet, owners, next1, side1, next3, other3, parent, cells, borders, work_a,
        work_b, work_c, work_d,
    );
    answer::number(started)
}

// Joins the regions a and b of a drawing as one of its editors, in its seven tables, which come to equal the drawing afresh. Refusals 1,
// 4, 11, 5, 6, 7, 10 and 9.
#[unsafe(no_mangle)]
pub extern "C" fn raimenolta_join_as(
    width: u16,
    height: u16,
    next1: &mut [u16],
    side1: &mut [u16],
    next3: &mut [u16],
    other3: &mut [u16],
    parent: &mut [u16],
    cells: &mut [u16],
    borders: &mut [u16],
    owners: &[u16],
    editor: u16,
    a: u16,
    b: u16,
    work_a: &mut [u16],
    work_b: &mut [u16],
    work_c: &mut [u16],
    work_d: &mut [u16],
) -> u16
    ensures { (ended result []
        (seven
        (tables next1.new side1.new next3.new other3.new parent.new
        cells.new borders.new))
        (works work_a.new work_b.new work_c.new work_d.new) ≡
        edited width height owners.now
        (tables next1.old side1.old next3.old other3.old parent.old
        cells.old borders.old)
        (call editor a b
        (works work_a.old work_b.old work_c.old work_d.old))) ×
        (result ≡ 0 →
        Faithful width height
        (tables next1.old side1.old next3.old other3.old parent.old
        cells.old borders.old)
        (tables next1.new side1.new next3.new other3.new parent.new
        cells.new borders.new)
        a
        b) }
{
    let joined = editor_call::join::join(
        width, height, next1, side1, next3, other3, parent, cells, borders, owners, editor, a, b,
        work_a, work_b, work_c, work_d,
    );
    answer::number(joined)
}
