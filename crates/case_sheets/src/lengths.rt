ghost use Rattle.case_sheets.specs.Room.{WorksFit, Fits};

use crate::lent;

// The width and the height of a case.
#[derive(Clone, Copy)]
pub struct Size {
    pub width: u16,
    pub height: u16,
}

// How long the four work tables of a case are.
#[derive(Clone, Copy)]
pub struct WorkLengths {
    pub a: usize,
    pub b: usize,
    pub c: usize,
    pub d: usize,
}

// How long the seven tables and the four work tables of a case are.
#[derive(Clone, Copy)]
pub struct Lengths {
    pub next1: usize,
    pub side1: usize,
    pub next3: usize,
    pub other3: usize,
    pub parent: usize,
    pub cells: usize,
    pub borders: usize,
    pub works: WorkLengths,
}

// The lengths of work tables that a list gives.
pub fn works(lengths: &[u16]) -> WorkLengths
    ensures { WorksFit result }
{
    WorkLengths {
        a: lent::length(lengths, 0),
        b: lent::length(lengths, 1),
        c: lent::length(lengths, 2),
        d: lent::length(lengths, 3),
    }
}

// The lengths that a list gives.
pub fn given(lengths: &[u16]) -> Lengths
    ensures { Fits result }
{
    Lengths {
        next1: lent::length(lengths, 0),
        side1: lent::length(lengths, 1),
        next3: lent::length(lengths, 2),
        other3: lent::length(lengths, 3),
        parent: lent::length(lengths, 4),
        cells: lent::length(lengths, 5),
        borders: lent::length(lengths, 6),
        works: works(lent::from(lengths, 7)),
    }
}

// The stated lengths for a sheet of a size.
pub fn stated(size: Size) -> Lengths
    ensures { Fits result }
{
    let slots = lent::slots(size.width, size.height);
    let names = lent::names(size.width, size.height);
    let lengths = [
        slots, slots, slots, slots, names, names, names, slots, slots, slots, slots,
    ];
    given(&lengths)
}
