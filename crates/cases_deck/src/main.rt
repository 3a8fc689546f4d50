// Runs the cases of the files that its arguments name through the calls that read and write decks, and writes what each
// answers. A file has a case a line; a letter says which call:
//   R LENGTH HEX        reading the bytes, into a cell table of a length
//   P WIDTH HEX         the part of the bytes that holds so many cells
//   W W H LENGTH L L .. writing a sheet into so many bytes
// Written are the refusal's number and the values. Of a read that is refused: 'kept' where the table is untouched. Of a
// sheet that was read: its labels, 'kept' where the rest of the table is 0, the number of writing it again, and 'kept'
// where that gave the same deck. Of a sheet that was written: the bytes, which are dots before.
#![tactic(auto)]

mod tried;

use case_files::{cases, text};
use std::io;
use std::io::Write;

// Runs a case.
fn run<W: Write>(out: &mut W, kind: u8, line: &[u8]) -> io::Result<()> {
    let first = text::number(line, 0);
    let rest = text::after(line, first.next);
    match kind {
        b'R' => tried::read(out, rest, first.value as usize),
        b'P' => tried::part(out, rest, (first.value % 65536) as u16),
        b'W' => tried::write(out, rest, first.value),
        _ => Ok(()),
    }
}

fn main(rt: HostRuntime) -> io::Result<()> {
    cases::run(&rt, |out, kind, line| run(out, kind, line))
}
