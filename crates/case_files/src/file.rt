ghost use Rattle.std.specs.Prelude.{◌≡◌, ◌≤◌, length, IfOk, IfErr};
ghost use Rattle.io.specs.Counts.{IsPrefixLen};

use std::env::Env;
use std::io::{Eprint, Read};
use std::rt::Files;
use std::{env, fs, io};

// Room for the files of a program: 524,288 bytes.
pub fn room() -> [u8; 524288]
    ensures { 524288 ≡ length result }
{
    [0; 524288]
}

// Reads an open file into the bytes from a place on, as many as there is room for, and answers the place after them.
fn read_on<R: Read>(file: &mut R, bytes: &mut [u8], from: usize) -> io::Result<usize>
    requires { from ≤ length bytes.old }
    ensures { IfOk result (λ end. end ≤ length bytes.new) }
{
    let mut end = from;
    while end < bytes.len() {
        let n = file.read(&mut bytes[end..])?;
        if n == 0 {
            return Ok(end);
        }
        end += n;
    }
    Ok(end)
}

// Reads the file that an argument names. One that cannot be opened is named on standard error, and left out.
fn read_argument<R: Files + Eprint>(
    rt: &R,
    name: &str,
    bytes: &mut [u8],
    from: usize,
) -> io::Result<usize>
    requires { from ≤ length bytes.old }
    ensures { IfOk result (λ end. end ≤ length bytes.new) }
{
    match fs::open(rt, name) {
        Ok(mut file) => read_on(&mut file, bytes, from),
        Err(error) => {
            eprintln!(rt; "{name}: {error}")?;
            Ok(from)
        }
    }
}

// Reads the files that the program's arguments name, one after another, and answers how many bytes they have. An error, which is
// the system's or that of memory, leaves some of the bytes read.
pub fn read_all<R: Files + Env + Eprint + AllocGlobal>(
    rt: &R,
    bytes: &mut [u8],
) -> io::Result<usize>
    ensures ok { IfOk result (λ n. IsPrefixLen n bytes.new) }
    ensures err { IfErr result (λ e. length bytes.new ≡ length bytes.old) }
{
    let mut end = 0;
    for name in env::args(rt)?.skip(1) {
        end = read_argument(rt, name.as_str(), bytes, end)?;
    }
    Ok(end)
}
