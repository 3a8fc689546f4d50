// Runs the cases of the files that its arguments name through joining, and writes what each answers. A case is a line, a
// letter and numbers:
//   T W H LABEL .. NAME NAME ..   a sheet of labels is drawn, and then the names are joined, two by two
//   R W H LABEL .. NAME NAME ..   the same, with the seven tables left unwritten
//   J W H NAME NAME NEXT1 SIDE1 NEXT3 OTHER3 PARENT CELLS BORDERS A B C D NUMBER ..
//                                 seven tables, their lengths and those of the work tables; two names are joined
//   L W H LABEL .. NAME ..        a sheet of labels is drawn, and the names are joined by one list
//   M W H COUNT NAME .. NEXT1 SIDE1 NEXT3 OTHER3 PARENT CELLS BORDERS A B C D NUMBER ..
//                                 seven tables as in J, and a list of so many names
//   D W H EVERY STRIDE            a sitting over a sheet whose cells all differ: the darts are gone through, each by so
//                                 many numbers after the one before, and the regions on the two sides of a dart are joined
// Of a join: the refusal's number, 'kept' where the tables of a refusal are as they were, and 'kept' or 'cleared' of the
// work tables. After the last join of T the seven tables. Of a list: the refusal's number, of a refusal its place and 'kept'
// or 'changed' of the tables, and 'kept' or 'cleared' of the work tables; after that of L the seven tables. Of a sitting,
// after so many joins each and after the last: how many were done, how many regions are left, whether the tables are those
// drawn afresh, and their sums.
#![tactic(auto)]

mod listed;
mod one;
mod sitting;
mod tried;

use case_files::{cases, text};
use std::io;

fn main(rt: HostRuntime) -> io::Result<()> {
    let alloc = rt.alloc();
    cases::run(&rt, |out, kind, text| {
        let mut values = text::room();
        let n = text::numbers(text, &mut values);
        tried::run(alloc, out, kind, &values[..n])
    })
}
