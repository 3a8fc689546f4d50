ghost use Rattle.std.specs.Prelude.{◌≡◌, ◌≤◌, ◌<◌, max, length};
ghost use Rattle.io.specs.Counts.{IsPrefixLen};

// A number that was read, and the place after it.
#[derive(Clone, Copy)]
pub struct Parsed {
    pub value: u32,
    pub next: usize,
}

// What follows the byte at a place; nothing where the place is past the end.
pub fn after(text: &[u8], place: usize) -> &[u8] {
    if place < text.len() {
        let start = place + 1;
        return &text[start..];
    }
    &text[..0]
}

// A number with one digit more; one that is large stays as it is.
fn longer(value: u32, digit: u8) -> u32
    requires { value < 1000000 }
    ensures { result < 1000000 }
{
    if value < 99000 {
        return 10 * value + digit as u32;
    }
    value
}

// The value of a decimal digit; more than 9 for any other byte.
fn digit(byte: u8) -> u8 {
    byte.wrapping_sub(b'0')
}

// The decimal number at a place, up to the first byte that is no digit.
pub fn number(text: &[u8], from: usize) -> Parsed
    ensures { result.next ≤ max from (length text.now) }
{
    let mut value = 0;
    for i in from..text.len() {
        let digit = digit(text[i]);
        if 9 < digit {
            return Parsed { value, next: i };
        }
        value = longer(value, digit);
    }
    Parsed {
        value,
        next: from.max(text.len()),
    }
}

// The value of a hexadecimal digit; 0 for any other byte.
fn nibble(byte: u8) -> u8
    ensures { result < 16 }
{
    match byte {
        b'0'..=b'9' => byte - b'0',
        b'a'..=b'f' => byte - b'a' + 10,
        _ => 0,
    }
}

// Decodes two digits a byte into the bytes lent, as many as there is room for, and answers how many.
pub fn decode(text: &[u8], bytes: &mut [u8]) -> usize
    ensures { IsPrefixLen result bytes.new }
{
    for (byte, pair) in bytes.iter_mut().zip(text.chunks_exact(2)) {
        *byte = 16 * nibble(pair[0]) + nibble(pair[1]);
    }
    bytes.len().min(text.len() / 2)
}

// The numbers of a line, as many as there is room for: answers how many.
pub fn numbers(line: &[u8], values: &mut [u16]) -> usize
    ensures { IsPrefixLen result values.new }
{
    let mut rest = line;
    for (i, value) in values.iter_mut().enumerate() {
        if rest.is_empty() {
            return i;
        }
        let read = number(rest, 0);
        *value = (read.value % 65536) as u16;
        rest = after(rest, read.next);
    }
    values.len()
}

// Room for the numbers of a line: 8,192.
pub fn room() -> [u16; 8192]
    ensures { 8192 ≡ length result }
{
    [0; 8192]
}
