ghost use Rattle.std.specs.Prelude.{◌≡◌, true, length};
ghost use Rattle.laws.specs.First.{first_failed};
ghost use Rattle.sheet_size.specs.Size.{within};
ghost use Rattle.point_darts.specs.Dart.{slots};
ghost use Rattle.paper.specs.Refusal.{name_tests};
ghost use Rattle.answer.specs.Answer.{number_of};
ghost use Rattle.join_answer.specs.Asked.{asked};

use crate::adjoin;
use answer::Refusal;
use point_darts::dart;
use sheet_size::Size;
use table_entries::entry;

// What joining answers to two names, by the parents of the drawing: done where both are regions and differ.
#[tactic(auto, using(crate::proofs::Asking::names_failed), unfolding(answer::specs::Answer::number_of, point_darts::specs::Dart::mark))]
pub fn check_names(parent: &[u16], a: u16, b: u16) -> Result<(), Refusal>
    ensures { number_of result ≡ first_failed (name_tests parent.now a b) }
{
    if a == 0 {
        return Err(Refusal::Outside);
    }
    if b == 0 {
        return Err(Refusal::Outside);
    }
    if a == b {
        return Err(Refusal::Equal);
    }
    if entry::get(parent, a) == dart::MARK {
        return Err(Refusal::Name);
    }
    if entry::get(parent, b) == dart::MARK {
        return Err(Refusal::Name);
    }
    Ok(())
}

// What joining answers to two names after a check of the drawing: what the check refuses, or what is refused of the names,
// comes first, then whether the two regions share a line. Width and height are known to be a size only where the check is passed.
pub fn asked(
    answer: Result<(), Refusal>,
    width: u16,
    height: u16,
    side: &[u16],
    parent: &[u16],
    a: u16,
    b: u16,
) -> Result<(), Refusal>
    requires { number_of answer ≡ 0 → (within width height ≡ true) × (length side.now ≡ slots width height) }
    ensures { number_of result ≡ asked answer width height side.now parent.now a b }
{
    answer?;
    check_names(parent, a, b)?;
    if !adjoin::adjoin(Size { width, height }, side, a, b) {
        return Err(Refusal::Apart);
    }
    Ok(())
}
