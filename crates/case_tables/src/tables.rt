use crate::show;
use answer::Refusal;
use case_sheets::lengths::{Lengths, WorkLengths};
use case_sheets::{lengths, lent};
use std::alloc::{AllocError, Global};
use std::io;
use std::io::Write;

// The seven tables of a drawing, which are held elsewhere.
#[derive(Clone, Copy, PartialEq, Eq)]
pub struct Tables<'a> {
    pub next1: &'a [u16],
    pub side1: &'a [u16],
    pub next3: &'a [u16],
    pub other3: &'a [u16],
    pub parent: &'a [u16],
    pub cells: &'a [u16],
    pub borders: &'a [u16],
}

// Four work tables, which are held elsewhere.
#[derive(Clone, Copy)]
pub struct Works<'a> {
    pub a: &'a [u16],
    pub b: &'a [u16],
    pub c: &'a [u16],
    pub d: &'a [u16],
}

// What a call answered, and the tables after it.
#[derive(Clone, Copy)]
pub struct Answered<'a> {
    pub answer: Result<(), Refusal>,
    pub tables: Tables<'a>,
    pub works: Works<'a>,
}

// The seven tables of a drawing that a program holds.
#[derive(Clone, PartialEq, Eq, Drop)]
pub struct HeldTables {
    pub next1: Vec<u16>,
    pub side1: Vec<u16>,
    pub next3: Vec<u16>,
    pub other3: Vec<u16>,
    pub parent: Vec<u16>,
    pub cells: Vec<u16>,
    pub borders: Vec<u16>,
}

// Four work tables that a program holds.
#[derive(Drop)]
pub struct HeldWorks {
    pub a: Vec<u16>,
    pub b: Vec<u16>,
    pub c: Vec<u16>,
    pub d: Vec<u16>,
}

impl HeldTables {
    // Tables of these lengths that no call has touched.
    pub fn untouched(alloc: Global, lengths: Lengths) -> Result<HeldTables, AllocError> {
        Ok(HeldTables {
            next1: vec![in alloc; lent::UNTOUCHED; lengths.next1]?,
            side1: vec![in alloc; lent::UNTOUCHED; lengths.side1]?,
            next3: vec![in alloc; lent::UNTOUCHED; lengths.next3]?,
            other3: vec![in alloc; lent::UNTOUCHED; lengths.other3]?,
            parent: vec![in alloc; lent::UNTOUCHED; lengths.parent]?,
            cells: vec![in alloc; lent::UNTOUCHED; lengths.cells]?,
            borders: vec![in alloc; lent::UNTOUCHED; lengths.borders]?,
        })
    }

    // The tables.
    pub fn tables(&self) -> Tables<'_> {
        Tables {
            next1: &self.next1,
            side1: &self.side1,
            next3: &self.next3,
            other3: &self.other3,
            parent: &self.parent,
            cells: &self.cells,
            borders: &self.borders,
        }
    }
}

impl HeldWorks {
    // Work tables of these lengths that no call has touched, and that are not clear.
    pub fn untouched(alloc: Global, lengths: WorkLengths) -> Result<HeldWorks, AllocError> {
        Ok(HeldWorks {
            a: vec![in alloc; lent::UNTOUCHED; lengths.a]?,
            b: vec![in alloc; lent::UNTOUCHED; lengths.b]?,
            c: vec![in alloc; lent::UNTOUCHED; lengths.c]?,
            d: vec![in alloc; lent::UNTOUCHED; lengths.d]?,
        })
    }

    // The work tables.
    pub fn works(&self) -> Works<'_> {
        Works {
            a: &self.a,
            b: &self.b,
            c: &self.c,
            d: &self.d,
        }
    }
}

// The seven tables that stand one after another in a list, by their lengths, or as much of them as it has.
pub fn given<'a>(lengths: &[u16], list: &'a [u16]) -> Tables<'a> {
    let lengths = lengths::given(lengths);
    let side1 = lent::from(list, lengths.next1);
    let next3 = lent::from(side1, lengths.side1);
    let other3 = lent::from(next3, lengths.next3);
    let parent = lent::from(other3, lengths.other3);
    let cells = lent::from(parent, lengths.parent);
    let borders = lent::from(cells, lengths.cells);
    Tables {
        next1: lent::part(list, 0, lengths.next1),
        side1: lent::part(side1, 0, lengths.side1),
        next3: lent::part(next3, 0, lengths.next3),
        other3: lent::part(other3, 0, lengths.other3),
        parent: lent::part(parent, 0, lengths.parent),
        cells: lent::part(cells, 0, lengths.cells),
        borders: lent::part(borders, 0, lengths.borders),
    }
}

// The same tables, held; what the list has not is as no call has touched it.
pub fn held(alloc: Global, lengths: &[u16], list: &[u16]) -> Result<HeldTables, AllocError> {
    let given = given(lengths, list);
    let mut tables = HeldTables::untouched(alloc, lengths::given(lengths))?;
    lent::copy(given.next1, &mut tables.next1);
    lent::copy(given.side1, &mut tables.side1);
    lent::copy(given.next3, &mut tables.next3);
    lent::copy(given.other3, &mut tables.other3);
    lent::copy(given.parent, &mut tables.parent);
    lent::copy(given.cells, &mut tables.cells);
    lent::copy(given.borders, &mut tables.borders);
    Ok(tables)
}

// Tables of these lengths, which may be more than the room, with the numbers that stand one after another in a list; what the list has
// not is as no call has touched it.
pub fn of_list(alloc: Global, lengths: Lengths, list: &[u16]) -> Result<HeldTables, AllocError> {
    let mut tables = HeldTables::untouched(alloc, lengths)?;
    let side1 = lent::from(list, lengths.next1);
    let next3 = lent::from(side1, lengths.side1);
    let other3 = lent::from(next3, lengths.next3);
    let parent = lent::from(other3, lengths.other3);
    let cells = lent::from(parent, lengths.parent);
    let borders = lent::from(cells, lengths.cells);
    lent::copy(list, &mut tables.next1);
    lent::copy(side1, &mut tables.side1);
    lent::copy(next3, &mut tables.next3);
    lent::copy(other3, &mut tables.other3);
    lent::copy(parent, &mut tables.parent);
    lent::copy(cells, &mut tables.cells);
    lent::copy(borders, &mut tables.borders);
    Ok(tables)
}

// Writes the seven tables of a drawing, in full or by their sums.
pub fn show<W: Write>(out: &mut W, tables: Tables<'_>, full: bool) -> io::Result<()> {
    show::table(out, tables.next1, full)?;
    show::table(out, tables.side1, full)?;
    show::table(out, tables.next3, full)?;
    show::table(out, tables.other3, full)?;
    show::table(out, tables.parent, full)?;
    show::table(out, tables.cells, full)?;
    show::table(out, tables.borders, full)
}

// Whether a table is as it was before a call.
pub fn untouched(table: &[u16]) -> bool {
    lent::all_are(table, lent::UNTOUCHED)
}

// Whether seven tables are as they were before a call.
pub fn all_untouched(tables: Tables<'_>) -> bool {
    untouched(tables.next1)
        & untouched(tables.side1)
        & untouched(tables.next3)
        & untouched(tables.other3)
        & untouched(tables.parent)
        & untouched(tables.cells)
        & untouched(tables.borders)
}

// Whether the work tables are as they were before a call.
fn kept(works: Works<'_>) -> bool {
    untouched(works.a) & untouched(works.b) & untouched(works.c) & untouched(works.d)
}

// Whether the work tables are all 0.
fn cleared(works: Works<'_>) -> bool {
    lent::all_are(works.a, 0)
        & lent::all_are(works.b, 0)
        & lent::all_are(works.c, 0)
        & lent::all_are(works.d, 0)
}

// Writes whether the work tables of a call are as they were, for the refusals 1 to 4, and else whether they are all 0.
pub fn show_works<W: Write>(out: &mut W, number: u16, works: Works<'_>) -> io::Result<()> {
    if (1..=4).contains(&number) {
        return show::kept(out, kept(works));
    }
    show::cleared(out, cleared(works))
}

// Writes what a join answered: its number, of a refusal whether the seven tables are as they were before, and how the work tables
// are left.
pub fn show_joined<W: Write>(
    out: &mut W,
    before: Tables<'_>,
    joined: Answered<'_>,
) -> io::Result<()> {
    let number = answer::number(joined.answer);
    show::number(out, number)?;
    if joined.answer.is_err() {
        show::kept(out, before == joined.tables)?;
    }
    show_works(out, number, joined.works)
}

#[cfg(test)]
mod tests {
    use super::*;
    use std::test::Fail;

    // The list goes on after the tables.
    #[test]
    fn tables_of_a_list(rt: HostRuntime) -> Result<(), Fail> {
        let lengths = Lengths {
            next1: 1,
            side1: 2,
            next3: 3,
            other3: 4,
            parent: 5,
            cells: 6,
            borders: 7,
            works: lengths::works(&[]),
        };
        let list = [
            11, 21, 22, 31, 32, 33, 41, 42, 43, 44, 51, 52, 53, 54, 55, 61, 62, 63, 64, 65, 66, 71,
            72, 73, 74, 75, 76, 77, 81, 82,
        ];
        let tables = of_list(rt.alloc(), lengths, &list)?;
        assert_eq!(rt; tables.next1.as_slice(), [11].as_slice());
        assert_eq!(rt; tables.side1.as_slice(), [21, 22].as_slice());
        assert_eq!(rt; tables.next3.as_slice(), [31, 32, 33].as_slice());
        assert_eq!(rt; tables.other3.as_slice(), [41, 42, 43, 44].as_slice());
        assert_eq!(rt; tables.parent.as_slice(), [51, 52, 53, 54, 55].as_slice());
        assert_eq!(rt;
            tables.cells.as_slice(),
            [61, 62, 63, 64, 65, 66].as_slice()
        );
        assert_eq!(rt;
            tables.borders.as_slice(),
            [71, 72, 73, 74, 75, 76, 77].as_slice()
        );
        Ok(())
    }

    // The lengths are past the room, and the list ends in the first table.
    #[test]
    fn tables_past_the_room(rt: HostRuntime) -> Result<(), Fail> {
        let lengths = Lengths {
            next1: lent::ROOM + 1,
            side1: lent::ROOM + 2,
            next3: lent::ROOM + 3,
            other3: lent::ROOM + 4,
            parent: lent::ROOM + 5,
            cells: lent::ROOM + 6,
            borders: 70000,
            works: lengths::works(&[]),
        };
        let tables = of_list(rt.alloc(), lengths, &[11, 12])?;
        assert_eq!(rt; tables.next1.len(), lent::ROOM + 1);
        assert_eq!(rt; tables.side1.len(), lent::ROOM + 2);
        assert_eq!(rt; tables.next3.len(), lent::ROOM + 3);
        assert_eq!(rt; tables.other3.len(), lent::ROOM + 4);
        assert_eq!(rt; tables.parent.len(), lent::ROOM + 5);
        assert_eq!(rt; tables.cells.len(), lent::ROOM + 6);
        assert_eq!(rt; tables.borders.len(), 70000);
        assert_eq!(rt; lent::part(&tables.next1, 0, 2), [11, 12].as_slice());
        assert!(rt; untouched(lent::from(&tables.next1, 2)));
        assert!(rt; untouched(&tables.side1));
        assert!(rt; untouched(&tables.borders));
        Ok(())
    }
}
