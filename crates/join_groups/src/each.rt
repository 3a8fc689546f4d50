// The entries of a list, one after another.
ghost use Rattle.std.specs.Prelude.{◌≡◌, true, ℕ, length};
ghost use Rattle.paper.specs.Drawing.{Tables};
ghost use Rattle.paper.specs.Order.{whole};
ghost use Rattle.answer.specs.Answer.{number_of};
ghost use Rattle.join_groups.specs.Group.{Standing, Stopped};

use crate::group::End;
use crate::pair;

// The entries of a list are joined one after another, up to the first that is refused, where groups stand for the drawing. What is
// left of the list grows shorter, since the promise is an equation about what is left.
pub fn join_each(
    width: u16,
    names: &[u16],
    side: &[u16],
    cells: &mut [u16],
    groups: &mut [u16],
    list: &mut [u16],
    first: &[u16],
    last: &mut [u16],
) -> End
    requires { (whole width (length names.now) ≡ true) ×
        ((h : ℕ) × (u : Tables) ×
        Standing width h side.now cells.old groups.old list.old first.now last.old u) }
    ensures { (h : ℕ) (u : Tables) →
        Standing width h side.now cells.old groups.old list.old first.now
        last.old
        u →
        Stopped width h names.now (number_of result.answer) result.place u side.now cells.new
        groups.new
        list.new
        first.now
        last.new }
{
    let mut rest = names;
    let mut place: u16 = 0;
    while 1 < rest.len() {
        let answer = pair::join_pair(
            width, rest[0], rest[1], side, cells, groups, list, first, last,
        );
        if answer.is_err() {
            return End { answer, place };
        }
        rest = &rest[2..];
        place += 1;
    }
    End {
        answer: Ok(()),
        place,
    }
}
