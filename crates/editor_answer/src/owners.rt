// The numbers of editors, and the owners of names.
ghost use Rattle.std.specs.Prelude.{◌≡◌, not, ◌&&◌, ◌||◌, ◌+◌, ◌*◌, eqb};
ghost use Rattle.sheet_size.specs.Size.{within};
ghost use Rattle.paper.specs.Editor.{is_editor, owned};

// Whether a number is that of an editor.
#[tactic(auto, unfolding(paper::specs::Editor::is_editor))]
fn is_editor(number: u16) -> bool
    ensures { result ≡ is_editor number }
{
    (number == 1) | (number == 2)
}

// Whether every name has an owner. The first entry, that of the outside, is not read. Every other is asked, so that the compiler takes
// many at a time.
pub fn are_owned(owners: &[u16]) -> bool
    ensures { result ≡ owned owners.now }
{
    let mut right = true;
    for i in 1..owners.len() {
        right = right & is_editor(owners[i]);
    }
    right
}

// Whether an editor may call by these owners.
pub fn may_call(editor: u16, owners: &[u16]) -> bool
    ensures { result ≡ (is_editor editor && owned owners.now) }
{
    if is_editor(editor) {
        return are_owned(owners);
    }
    false
}

// Whether so many owners may be lent for a size: one for each name and one for the outside. A size out of the limits is refused first.
pub fn are_stated(width: u16, height: u16, length: usize) -> bool
    ensures { result ≡ (not (within width height) || eqb length (width * height + 1)) }
{
    if !sheet_size::within(width, height) {
        return true;
    }
    length == (width * height + 1) as usize
}
