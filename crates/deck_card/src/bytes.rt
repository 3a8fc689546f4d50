ghost use Rattle.std.specs.Prelude.{◌≡◌, ℕ, ◌≤◌, ◌<◌, length, get_or};
ghost use Rattle.std.proofs.Math.Seq.{slice};
ghost use Rattle.laws.specs.Equal.{equal};
ghost use Rattle.laws.specs.Every.{every};
ghost use Rattle.deck_card.specs.Card.{columns, long, from_to, digit, card};

use crate::card::{BLANK, COLUMNS, FEED, PLACES};

// The byte of the decimal digit of a number that has so many digits after it.
pub fn digit(number: u16, after: usize) -> u8
    ensures { result ≡ digit number after }
{
    let mut rest = number;
    for _ in 0..after {
        rest /= 10;
    }
    48 + (rest % 10) as u8
}

// The byte at a place of the card with a number and a content.
fn byte(content: &[u16], number: u16, place: usize) -> u8
    requires content_fits { (length content.now ≤ columns) × ((i : ℕ) → get_or content.now i 0 < 256) }
    requires on_card { place < long }
    ensures { result ≡ get_or (card number content.now) place 0 }
{
    if place < content.len() {
        return content[place] as u8;
    }
    if place < COLUMNS {
        return BLANK;
    }
    if place < COLUMNS + PLACES {
        return digit(number, COLUMNS + PLACES - 1 - place);
    }
    FEED
}

// Whether the bytes from one place up to another are those of the card with a number and a content.
pub fn agrees(bytes: &[u8], content: &[u16], number: u16, from: usize, to: usize) -> bool
    requires content_fits { (length content.now ≤ columns) × ((i : ℕ) → get_or content.now i 0 < 256) }
    requires columns_there { (from ≤ to) × ((to ≤ length bytes.now) × (to ≤ long)) }
    ensures { result ≡ equal (slice from to bytes.now) (slice from to (card number content.now)) }
{
    (from..to).all(|place| bytes[place] == byte(content, number, place))
}

// Writes the card with a number and a content.
pub fn put(bytes: &mut [u8], content: &[u16], number: u16)
    requires content_fits { (length content.now ≤ columns) × ((i : ℕ) → get_or content.now i 0 < 256) }
    requires one_card { length bytes.old ≡ long }
    ensures { bytes.new ≡ card number content.now }
{
    for place in 0..bytes.len() {
        bytes[place] = byte(content, number, place);
    }
}

// Whether each byte is from the low one to the high one.
pub fn all_between(bytes: &[u8], low: u8, high: u8) -> bool
    ensures { result ≡ every (from_to low high) bytes.now }
{
    bytes.iter().all(|byte| (low..=high).contains(byte))
}
