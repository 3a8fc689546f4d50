// The limits of a sheet: how wide and how high it may be.
#![tactic(auto)]

ghost use Rattle.std.specs.Prelude.{◌≡◌, true, is_some, IfSome};
ghost use Rattle.sheet_size.specs.Size.{within};

// The greatest width.
pub const WIDEST: u16 = 110;

// The greatest height.
pub const TALLEST: u16 = 72;

// Whether a width and a height are both 1 to the greatest.
pub fn within(width: u16, height: u16) -> bool
    ensures { result ≡ within width height }
{
    if width < 1 {
        return false;
    }
    if WIDEST < width {
        return false;
    }
    if height < 1 {
        return false;
    }
    height <= TALLEST
}

// The size of a sheet that may be: its width and its height are within the limits.
#[derive(Clone, Copy)]
pub struct Size {
    pub width: u16,
    pub height: u16,
    ghost limited: { within width height ≡ true },
}

impl Size {
    // The size of a width and a height; none where one of them is out of the limits.
    pub fn new(width: u16, height: u16) -> Option<Size>
        ensures tested { is_some result ≡ within width height }
        ensures width { IfSome result (λ size. size.width ≡ width) }
        ensures height { IfSome result (λ size. size.height ≡ height) }
    {
        if !within(width, height) {
            return None;
        }
        Some(Size { width, height })
    }
}
