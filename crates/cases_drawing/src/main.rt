// Runs the cases of the files that its arguments name through the whole drawing, the check and the counts, and writes
// what each answers. A case is a line, a letter and numbers:
//   T W H LABEL ..                                         a sheet of labels, drawn into tables of the stated lengths
//   L W H NEXT1 SIDE1 NEXT3 OTHER3 PARENT CELLS BORDERS A B C D LABEL ..
//                                                          the same, with a length for each table and work table
//   D W H                                                  a sheet whose cells all differ
//   S W H                                                  squares round one another
//   C W H SEED LABELS                                      so many labels by chance
//   J W H NAME NEXT1 SIDE1 NEXT3 OTHER3 PARENT CELLS BORDERS DEPTHS HOLES A B C D NUMBER ..
//                                                          seven tables, their lengths and those of the others
// Of a sheet that is drawn: the refusal's number, the seven tables, in full for the labels of a case and else their sums;
// what the counts of all names answer, and for the labels of a case also what the counts of one name answer for each.
// Of seven tables: what the check, the counts of all names, and depth and hole count of the name answer.
// 'kept' is written where the tables of a refusal are as they were, and 'kept' or 'cleared' of the work tables.
#![tactic(auto)]

mod asked;
mod given;
mod tried;

use case_files::{cases, text};
use std::io;

fn main(rt: HostRuntime) -> io::Result<()> {
    let alloc = rt.alloc();
    cases::run(&rt, |out, kind, text| {
        let mut values = text::room();
        let n = text::numbers(text, &mut values);
        tried::run(alloc, out, kind, &values[..n])
    })
}
