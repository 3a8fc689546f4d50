ghost use Rattle.std.specs.Prelude.{◌≡◌, List, map, ◌≢◌, ℕ, ◌+◌, ◌-◌, ◌≤◌, ◌<◌, length, get_or};
ghost use Rattle.laws.specs.First.{first_failed};
ghost use Rattle.laws.specs.Least.{lower};
ghost use Rattle.point_darts.specs.Dart.{mark};
ghost use Rattle.paper.specs.Drawing.{Tables};
ghost use Rattle.paper.specs.Joining.{at, added, joined};
ghost use Rattle.paper.specs.Refusal.{pair_tests};
ghost use Rattle.answer.specs.Answer.{number_of};
ghost use Rattle.table_forest.specs.Forest.{Forest};
ghost use Rattle.region_darts.specs.Lists.{Of, Lists};
ghost use Rattle.join_groups.specs.Group.{Standing};

use crate::share;
use answer::Refusal;
use join_answer::asked;
use join_totals::total;
use region_darts::list;
use table_forest::nodes;

// The lists of the darts of a and b become one, under the smaller of the two names.
fn link_lists(a: u16, b: u16, list: &mut [u16], first: &[u16], last: &mut [u16])
    requires { a ≢ b }
    ensures { (s : List ℕ) (g : ℕ → ℕ) (d e : ℕ) → length s ≡ length list.old → a < length last.old →
        b < length last.old → length s ≤ mark → Of s g a d → Of s g b e →
        Lists s g list.old first.now last.old →
        Lists s (λ v. lower a b (g v)) list.new first.now last.new }
{
    if a < b {
        list::link_lists(a, b, list, first, last);
    } else {
        list::link_lists(b, a, list, first, last);
    }
}

// The groups a and b become one: their trees, their lists of darts and their cells.
fn put_together(
    a: u16,
    b: u16,
    cells: &mut [u16],
    groups: &mut [u16],
    list: &mut [u16],
    first: &[u16],
    last: &mut [u16],
)
    requires { (a ≢ 0) × (b ≢ 0) × (a ≢ b) × (a ≤ length groups.old) × (b ≤ length groups.old) ×
        (at cells.old a + at cells.old b ≤ mark) }
    ensures counted { cells.new ≡ added a b 0 cells.old }
    ensures linked { (m : ℕ) (l : List ℕ) → Forest m l groups.old → a ≤ m → b ≤ m → get_or l (a - 1) 0 ≡ a - 1 →
        get_or l (b - 1) 0 ≡ b - 1 → Forest m (map (lower (a - 1) (b - 1)) l) groups.new }
    ensures listed { (s : List ℕ) (g : ℕ → ℕ) (d e : ℕ) → length s ≡ length list.old → a < length last.old →
        b < length last.old → length s ≤ mark → Of s g a d → Of s g b e →
        Lists s g list.old first.now last.old →
        Lists s (λ v. lower a b (g v)) list.new first.now last.new }
{
    total::add_up(a, b, 0, cells);
    nodes::link(groups, a - 1, b - 1);
    link_lists(a, b, list, first, last);
}

// Joins the regions a and b where groups stand for a drawing. Refusals 6 to 9, which leave the groups.
pub fn join_pair(
    width: u16,
    a: u16,
    b: u16,
    side: &[u16],
    cells: &mut [u16],
    groups: &mut [u16],
    list: &mut [u16],
    first: &[u16],
    last: &mut [u16],
) -> Result<(), Refusal>
    requires { (h : ℕ) × (u : Tables) ×
        Standing width h side.now cells.old groups.old list.old first.now last.old u }
    ensures { (h : ℕ) (u : Tables) →
        Standing width h side.now cells.old groups.old list.old first.now
        last.old
        u →
        (number_of result ≡ first_failed (pair_tests width h u.side1 u.parent a b)) ×
        (number_of result ≡ 0 →
        Standing width h side.now cells.new groups.new list.new first.now
        last.new
        (joined width h u a b)) ×
        (number_of result ≢ 0 →
        Standing width h side.now cells.new groups.new list.new first.now
        last.new
        u) }
{
    asked::check_names(cells, a, b)?;
    if !share::share(width, a, b, side, cells, groups, list, first) {
        return Err(Refusal::Apart);
    }
    put_together(a, b, cells, groups, list, first, last);
    Ok(())
}
