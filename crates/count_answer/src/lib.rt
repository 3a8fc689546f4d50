// What a count answers after a check of the drawing.
#![tactic(auto)]

ghost use Rattle.std.specs.Prelude.{◌≡◌};
ghost use Rattle.region_depths.specs.Tree.{known};
ghost use Rattle.paper.specs.Enclosure.{depth, holes};
ghost use Rattle.paper.specs.Joining.{on};
ghost use Rattle.answer.specs.Answer.{number_of};
ghost use Rattle.count_answer.specs.Count.{after, Countable, Lent};

use answer::Refusal;
use count_holes::holes;
use point_darts::dart;
use region_depths::tree;
use sheet_size::Size;
use table_entries::entry;

// Whether a name is the outside's or some region's.
#[tactic(auto, unfolding(region_depths::specs::Tree::known, paper::specs::Joining::on, point_darts::specs::Dart::mark))]
fn is_known(parent: &[u16], name: u16) -> bool
    ensures { result ≡ known parent.now name }
{
    if name == 0 {
        return true;
    }
    entry::get(parent, name) != dart::MARK
}

// The depth after a check of the drawing: what the check refuses, or that no region has the name, comes first.
#[tactic(auto, unfolding(crate::specs::Count::after))]
pub fn depth_after(answer: Result<(), Refusal>, parent: &[u16], name: u16) -> Result<u16, Refusal>
    requires { Countable answer parent.now }
    ensures { result ≡ after answer (known parent.now name) (depth parent.now name) }
{
    answer?;
    if !is_known(parent, name) {
        return Err(Refusal::Name);
    }
    Ok(tree::depth(parent, name))
}

// The hole count after a check of the drawing: what the check refuses, or that no region has the name, comes first. The work
// table is left cleared, as the check left it.
#[tactic(auto, unfolding(crate::specs::Count::after))]
pub fn holes_after(
    answer: Result<(), Refusal>,
    width: u16,
    height: u16,
    side: &[u16],
    parent: &[u16],
    name: u16,
    work: &mut [u16],
) -> Result<u16, Refusal>
    requires { number_of answer ≡ 0 → Lent width height side.now parent.now work.old }
    ensures { (result ≡
        after answer (known parent.now name)
        (holes width height (on side.now) parent.now name)) ×
        (work.new ≡ work.old) }
{
    answer?;
    if !is_known(parent, name) {
        return Err(Refusal::Name);
    }
    Ok(holes::holes(Size { width, height }, side, name, work))
}
