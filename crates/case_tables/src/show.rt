use case_sheets::lent;
use std::fmt::Display;
use std::io;
use std::io::Write;

// Writes bytes as they are.
pub fn text<W: Write>(out: &mut W, text: &[u8]) -> io::Result<()> {
    out.write_all(text)
}

// Ends a line.
pub fn line_end<W: Write>(out: &mut W) -> io::Result<()> {
    text(out, b"\n")
}

// Writes a number, a label, a dart, a name or a refusal's number, with a blank before it.
pub fn number<W: Write, N: Display + Copy>(out: &mut W, value: N) -> io::Result<()> {
    write!(out, " {value}")
}

// Writes numbers, each with a blank before it.
pub fn numbers<W: Write, N: Display>(out: &mut W, values: &[N]) -> io::Result<()> {
    for value in values {
        write!(out, " {value}")?;
    }
    Ok(())
}

// Writes a table, in full or by its sum, after a semicolon.
pub fn table<W: Write>(out: &mut W, table: &[u16], full: bool) -> io::Result<()> {
    text(out, b" ;")?;
    if full {
        return numbers(out, table);
    }
    number(out, lent::sum(table))
}

// Writes a text where something holds, else another, in one piece.
fn either<W: Write>(out: &mut W, holds: bool, one: &[u8], other: &[u8]) -> io::Result<()> {
    text(out, if holds { one } else { other })
}

// Writes whether what was lent is as it was.
pub fn kept<W: Write>(out: &mut W, kept: bool) -> io::Result<()> {
    either(out, kept, b" kept", b" changed")
}

// Writes whether the work tables are all 0.
pub fn cleared<W: Write>(out: &mut W, cleared: bool) -> io::Result<()> {
    either(out, cleared, b" cleared", b" uncleared")
}

// Writes whether something is the same as something else.
pub fn same<W: Write>(out: &mut W, same: bool) -> io::Result<()> {
    either(out, same, b" same", b" differs")
}
