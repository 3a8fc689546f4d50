// Runs the cases of the files that its arguments name through starting a drawing and joining as its editors, and writes what
// each answers. A case is a line, a letter and numbers:
//   S W H LABELS OWNERS NEXT1 SIDE1 NEXT3 OTHER3 PARENT CELLS BORDERS A B C D LABEL .. OWNER ..
//                                 so many labels and owners; a drawing is started in tables of these lengths
//   E W H LABEL .. OWNER .. EDITOR NAME NAME ..
//                                 a drawing is started in tables of the stated lengths, an owner for each name and first one for
//                                 the outside; then its editors join two names each, call after call
//   G W H EDITOR NAME NAME OWNERS NEXT1 SIDE1 NEXT3 OTHER3 PARENT CELLS BORDERS A B C D OWNER .. NUMBER ..
//                                 so many owners, and seven tables, their lengths and those of the work tables; an editor
//                                 joins two names
// Of a start: the refusal's number, 'kept' where the tables of a refusal are as they were, 'same' where those of a drawing are
// the plain drawing's, and 'kept' or 'cleared' of the work tables. Of a join: the refusal's number, 'kept' where the tables of a
// refusal are as they were, and 'kept' or 'cleared' of the work tables. After the last join of E the seven tables. Then for each
// editor a line that starts with 'alone': that editor's calls are made without the other's. It has what they answer and 'same'
// where they answer so among the other's too; each cell's region, or 0 where it is not the editor's, and 'same' again; and of each
// region of the editor's the name, how many cells and border lines it has, and 'same' again.
#![tactic(auto)]

mod alone;
mod mixture;
mod one;
mod started;
mod tried;

use case_files::{cases, text};
use std::io;

fn main(rt: HostRuntime) -> io::Result<()> {
    let alloc = rt.alloc();
    cases::run(&rt, |out, kind, text| {
        let mut values = text::room();
        let n = text::numbers(text, &mut values);
        tried::run(alloc, out, kind, &values[..n])
    })
}
