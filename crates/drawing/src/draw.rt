// The tables stay parameters: a struct of lent tables was tried, and proves less (docs/DECISIONS.md, "The code's forms").
ghost use Rattle.std.specs.Prelude.{IfOk, ◌≡◌, true};
ghost use Rattle.laws.specs.First.{first_failed};
ghost use Rattle.paper.specs.Drawing.{drawing};
ghost use Rattle.paper.specs.Refusal.{cleared, seven, stated, draw_tests, mapped};
ghost use Rattle.answer.specs.Answer.{number_of, told};
ghost use Rattle.table_lengths.specs.Given.{tables, works};
ghost use Rattle.table_lengths.specs.Lengths.{lengths};
ghost use Rattle.drawing.specs.Parts.{Framed};

use crate::parts;
use answer::Refusal;
use region_names::names;
use sheet_size::Size;
use table_entries::entry;

// What the whole drawing answers to a width and a height, the length of the sheet, and the lengths of the tables by name and by dart.
#[tactic(auto, unfolding(answer::specs::Answer::number_of, paper::specs::Refusal::draw_tests, laws::specs::First::first_failed))]
pub fn refusal(
    width: u16,
    height: u16,
    sheet: usize,
    by_name: &[usize],
    by_dart: &[usize],
) -> Result<Size, Refusal>
    ensures number { number_of result ≡
        first_failed
        (draw_tests width height sheet (lengths width height by_name.now by_dart.now)) }
    ensures size { IfOk result (λ size. (size.width ≡ width) × (size.height ≡ height)) }
{
    let Some(size) = Size::new(width, height) else {
        return Err(Refusal::Size);
    };
    if sheet != (width * height) as usize {
        return Err(Refusal::Sheet);
    }
    if !table_lengths::stated(size, by_name, by_dart) {
        return Err(Refusal::Tables);
    }
    Ok(size)
}

// The seven tables of a sheet from its names with the outside round them, which stand at the front of work_b. The work
// tables come out cleared.
pub fn draw_names(
    size: Size,
    next1: &mut [u16],
    side1: &mut [u16],
    next3: &mut [u16],
    other3: &mut [u16],
    parent: &mut [u16],
    cells: &mut [u16],
    borders: &mut [u16],
    work_a: &mut [u16],
    work_b: &mut [u16],
    work_c: &mut [u16],
    work_d: &mut [u16],
)
    requires { (stated size.width size.height
        (tables next1.old side1.old next3.old other3.old parent.old cells.old borders.old)
        (works work_a.old work_b.old work_c.old work_d.old) ≡ true) ×
        Framed size.width size.height work_b.old }
    ensures { ((f : Framed size.width size.height work_b.old) →
        tables next1.new side1.new next3.new other3.new parent.new
        cells.new borders.new ≡ drawing size.width size.height f.labels) ×
        (works work_a.new work_b.new work_c.new work_d.new ≡
        cleared
        (works work_a.old work_b.old work_c.old work_d.old)) }
{
    parts::draw_lines(size, work_b, work_a, next1, side1);
    parts::draw_totals(size, work_b, cells, borders, work_c);
    parts::keep_points(size, side1, work_a, work_b, work_c);
    parts::draw_curves(size, next1, work_c, next3, other3);
    parts::draw_parents(size, side1, work_b, parent);
    entry::clear_four(work_a, work_b, work_c, work_d);
}

// Draws a sheet: its seven tables. Refusals 1, 3 and 4, which leave every table as it was; the work tables come out
// cleared when it is done.
pub fn draw(
    width: u16,
    height: u16,
    sheet: &[u16],
    next1: &mut [u16],
    side1: &mut [u16],
    next3: &mut [u16],
    other3: &mut [u16],
    parent: &mut [u16],
    cells: &mut [u16],
    borders: &mut [u16],
    work_a: &mut [u16],
    work_b: &mut [u16],
    work_c: &mut [u16],
    work_d: &mut [u16],
) -> Result<(), Refusal>
    ensures { told result
        (seven
        (tables next1.new side1.new next3.new other3.new parent.new
        cells.new borders.new))
        (works work_a.new work_b.new work_c.new work_d.new) ≡
        mapped width height sheet.now
        (tables next1.old side1.old next3.old other3.old parent.old
        cells.old borders.old)
        (works work_a.old work_b.old work_c.old work_d.old) }
{
    let size = refusal(
        width,
        height,
        sheet.len(),
        &[parent.len(), cells.len(), borders.len()],
        &[
            next1.len(),
            side1.len(),
            next3.len(),
            other3.len(),
            work_a.len(),
            work_b.len(),
            work_c.len(),
            work_d.len(),
        ],
    )?;
    names::name_cells(size, sheet, work_a, work_b);
    draw_names(
        size, next1, side1, next3, other3, parent, cells, borders, work_a, work_b, work_c, work_d,
    );
    Ok(())
}
