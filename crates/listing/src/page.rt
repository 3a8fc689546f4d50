// Text on its way to a writer. Bytes wait on a page, from its front on, until it is full.
// The page is an array, and not the library's buffer: so the listing needs no memory but its stack.
ghost use Rattle.std.specs.Prelude.{◌≤◌, ◌<◌, OnOk};

use std::io;
use std::io::Write;

// How many bytes a page holds.
const ROOM: usize = 65536;

// The digits of the greatest number.
const DIGITS: usize = 20;

// A page, and how many bytes wait on it.
#[derive(Drop)]
pub(crate) struct Page {
    bytes: [u8; ROOM],
    at: usize,
    ghost fits: { at ≤ 65536 },
}

impl Page {
    // An empty page.
    pub(crate) fn new() -> Page {
        Page {
            bytes: [0; ROOM],
            at: 0,
        }
    }

    // Writes out what waits on the page, which is begun again.
    pub(crate) fn write_out<W: Write>(&mut self, out: &mut W) -> io::Result<()>
        ensures { OnOk result (self.new.at < 65536) }
    {
        out.write_all(&self.bytes[..self.at])?;
        self.at = 0;
        Ok(())
    }

    // Puts a byte on the page. One that is full is written out first.
    pub(crate) fn byte<W: Write>(&mut self, out: &mut W, value: u8) -> io::Result<()> {
        if self.at == ROOM {
            self.write_out(out)?;
        }
        self.bytes[self.at] = value;
        self.at += 1;
        Ok(())
    }

    // Puts bytes on the page.
    pub(crate) fn text<W: Write>(&mut self, out: &mut W, values: &[u8]) -> io::Result<()> {
        for value in values {
            self.byte(out, *value)?;
        }
        Ok(())
    }

    // Puts a blank and a number on the page. Its digits are found from the last.
    pub(crate) fn number<W: Write>(&mut self, out: &mut W, value: u64) -> io::Result<()> {
        let mut text = [b' '; DIGITS + 1];
        let mut rest = value;
        for place in (1..DIGITS + 1).rev() {
            text[place] = b'0' + (rest % 10) as u8;
            rest /= 10;
            if rest == 0 {
                return self.text(out, &text[place - 1..]);
            }
        }
        Ok(())
    }
}
