use crate::{file, text};
use std::alloc::Global;
use std::env::Env;
use std::io;
use std::io::{BufWriter, Eprint, Print, Printer, Write};
use std::rt::Files;

// How many bytes wait before they are written out.
const PAGE: usize = 65536;

// What the programs write to.
pub type Out<'a, R> = BufWriter<Printer<'a, R>, Global>;

// Runs each line that is not empty as a case: its letter, and what follows the blank after it.
fn run_lines<W, F: FnMut(&mut W, u8, &[u8]) -> io::Result<()>>(
    out: &mut W,
    lines: &[u8],
    mut run: F,
) -> io::Result<()>
    requires { F.IsAlwaysCallable run }
{
    for line in lines.split(|byte| *byte == b'\n') {
        if let Some(kind) = line.first() {
            run(out, *kind, text::after(line, 1))?;
        }
    }
    Ok(())
}

// Reads the files that the program's arguments name, runs their cases, and writes out what these write.
pub fn run<
    'a,
    R: Files + Env + Eprint + Print + AllocGlobal,
    F: FnMut(&mut Out<'a, R>, u8, &[u8]) -> io::Result<()>,
>(rt: &'a R, run_case: F) -> io::Result<()>
    requires { F.IsAlwaysCallable run_case }
{
    let mut bytes = file::room();
    let n = file::read_all(rt, &mut bytes)?;
    let mut out = BufWriter::with_capacity(rt.alloc(), PAGE, io::writer(rt))?;
    run_lines(&mut out, &bytes[..n], run_case)?;
    out.flush()
}
