ghost use Rattle.std.specs.Prelude.{◌≡◌, ◌*◌, length, take};
ghost use Rattle.point_darts.specs.Dart.{slots};
ghost use Rattle.paper.specs.Name.{names};
ghost use Rattle.region_names.specs.Frame.{surround, framed};

use crate::{cells, frame};
use point_darts::dart;
use sheet_size::Size;

// The names of a sheet with the outside round them, at the front of a work table. First is work.
pub fn name_cells(size: Size, sheet: &[u16], first: &mut [u16], round: &mut [u16])
    requires { (length sheet.now ≡ size.width * size.height) × (length first.old ≡ slots size.width size.height) ×
        (length round.old ≡ slots size.width size.height) }
    ensures { take (surround size.width size.height) round.new ≡ framed size.width size.height (names size.width size.height sheet.now) }
{
    let cells = (size.width * size.height) as usize;
    let around = (dart::points(size) + size.width + 2) as usize;
    cells::first_cells(size, sheet, &mut first[..cells]);
    frame::frame(size, &first[..cells], &mut round[..around]);
}
