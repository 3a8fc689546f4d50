ghost use Rattle.std.specs.Prelude.{◌≡◌, ◌-◌, ◌≤◌, ◌<◌, get_or, IfOk};
ghost use Rattle.deck_card.specs.Card.{columns};
ghost use Rattle.deck_card.specs.Outcome.{fault_told};
ghost use Rattle.deck_faults.specs.Fault.{value, wide_form, width, height, header};

use crate::form;
use deck_card::answer::Fault;
use deck_card::bytes;
use deck_card::card::COLUMNS;
use sheet_size::Size;

// The byte at a place, 0 past the end: a name for what the library says in one line.
fn at(bytes: &[u8], place: usize) -> u8
    ensures { result ≡ get_or bytes.now place 0 }
{
    bytes.get(place).copied().unwrap_or(0)
}

// The value of a digit's byte, 0 below the digits.
fn worth(byte: u8) -> u16
    ensures { result ≡ byte - 48 }
{
    byte.saturating_sub(b'0') as u16
}

// The number whose two digits stand at a place of a card and the next; at most 2,277, whatever the bytes.
#[tactic(auto, unfolding(deck_card::specs::Card::columns, crate::specs::Fault::value))]
fn value(card: &[u8], place: usize) -> u16
    requires { place < columns }
    ensures { (result ≡ value card.now place) × (result ≤ 2277) }
{
    10 * worth(at(card, place)) + worth(at(card, place + 1))
}

// Whether a header has the wide form: SHEET2.
#[tactic(auto, unfolding(crate::specs::Fault::wide_form))]
fn wide_form(card: &[u8]) -> bool
    ensures { result ≡ wide_form card.now }
{
    at(card, 5) == b'2'
}

// The width that a header names.
#[tactic(auto, unfolding(deck_card::specs::Card::columns, crate::specs::Fault::width))]
pub fn width(card: &[u8]) -> u16
    ensures { result ≡ width card.now }
{
    if wide_form(card) {
        10 * value(card, 6) + worth(at(card, 8))
    } else {
        value(card, 6)
    }
}

// The height that a header names.
#[tactic(auto, unfolding(deck_card::specs::Card::columns, crate::specs::Fault::height))]
pub fn height(card: &[u8]) -> u16
    ensures { result ≡ height card.now }
{
    if wide_form(card) {
        value(card, 9)
    } else {
        value(card, 8)
    }
}

// The size that a header names. Its faults: its form's, or that it is not the header of the size that it names, or the size is
// none.
pub fn size(card: &[u8]) -> Result<Size, Fault>
    ensures fault { fault_told result ≡ header card.now }
    ensures named { IfOk result (λ size. (size.width ≡ width card.now) × (size.height ≡ height card.now)) }
{
    form::refusal(card, 1)?;
    let width = width(card);
    let height = height(card);
    let size = Size::new(width, height).ok_or(Fault::Header)?;
    let content = deck_layout::heading(width, height);
    if !bytes::agrees(card, &content, 1, 0, COLUMNS) {
        return Err(Fault::Header);
    }
    Ok(size)
}
