// Runs the cases of the files that its arguments name through the level drawing, and writes what each answers. A case is
// a line, a letter and numbers:
//   T W H LEVEL LABEL ..                           a sheet of labels, drawn into tables of slot length
//   L W H LEVEL NEXT OTHER SIDE A B C D LABEL ..   the same, with a length for each result and work table
//   D W H LEVEL                                    a sheet whose cells all differ
//   S W H LEVEL                                    squares round one another
//   C W H LEVEL SEED LABELS                        so many labels by chance
// Written is the refusal's number. Of a level that was drawn: next, other and side, in full for the labels of a case and
// else their sums, and 'cleared' where the work tables are all 0. Of a refusal: 'kept' where the result tables are as they
// were, and again for the work tables.
#![tactic(auto)]

mod tried;

use case_files::{cases, text};
use std::io;

fn main(rt: HostRuntime) -> io::Result<()> {
    let alloc = rt.alloc();
    cases::run(&rt, |out, kind, text| {
        let mut values = text::room();
        let n = text::numbers(text, &mut values);
        tried::run(alloc, out, kind, &values[..n])
    })
}
