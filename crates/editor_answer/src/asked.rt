ghost use Rattle.std.specs.Prelude.{◌≡◌, true, length};
ghost use Rattle.sheet_size.specs.Size.{within};
ghost use Rattle.point_darts.specs.Dart.{slots};
ghost use Rattle.paper.specs.Editor.{theirs};
ghost use Rattle.answer.specs.Answer.{number_of};
ghost use Rattle.editor_answer.specs.Asked.{named, asked};

use crate::owners;
use answer::Refusal;
use join_answer::{asked, judge};
use point_darts::dart;
use table_entries::entry;

// Whether a present region of an editor's has a name.
fn is_theirs(owners: &[u16], parent: &[u16], editor: u16, name: u16) -> bool
    ensures { result ≡ theirs owners.now parent.now editor name }
{
    if entry::get(owners, name) != editor {
        return false;
    }
    entry::get(parent, name) != dart::MARK
}

// What joining as an editor answers to two names, where nothing was refused before: done where both are of different regions of the
// editor's.
#[tactic(auto, using(crate::proofs::Asking::named_failed), unfolding(answer::specs::Answer::number_of))]
fn named(
    answer: Result<(), Refusal>,
    owners: &[u16],
    parent: &[u16],
    editor: u16,
    a: u16,
    b: u16,
) -> Result<(), Refusal>
    ensures { number_of result ≡ named (number_of answer) owners.now parent.now editor a b }
{
    answer?;
    if a == 0 {
        return Err(Refusal::Outside);
    }
    if b == 0 {
        return Err(Refusal::Outside);
    }
    if a == b {
        return Err(Refusal::Equal);
    }
    if !is_theirs(owners, parent, editor, a) {
        return Err(Refusal::Owner);
    }
    if !is_theirs(owners, parent, editor, b) {
        return Err(Refusal::Owner);
    }
    Ok(())
}

// What joining as an editor answers after a check of the drawing: 11 comes after the check's 4 and before its 5, then 6, 7, 10 and 9.
// That the two share a line is asked as of any join.
pub fn asked(
    checked: Result<(), Refusal>,
    width: u16,
    height: u16,
    owners: &[u16],
    editor: u16,
    side: &[u16],
    parent: &[u16],
    a: u16,
    b: u16,
) -> Result<(), Refusal>
    requires { number_of checked ≡ 0 → (within width height ≡ true) × (length side.now ≡ slots width height) }
    ensures { number_of result ≡
        asked (number_of checked) width height owners.now side.now parent.now editor a b }
{
    let judged = judge::judged_or(
        checked,
        owners::may_call(editor, owners),
        Err(Refusal::Editor),
    );
    let answer = named(judged, owners, parent, editor, a, b);
    asked::asked(answer, width, height, side, parent, a, b)
}
