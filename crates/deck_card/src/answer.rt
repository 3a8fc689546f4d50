// What reading and writing a deck refuse, and the part of a card.
ghost use Rattle.std.specs.Prelude.{◌≡◌};
ghost use Rattle.deck_card.specs.Outcome.{fault_number, write_refusal_number, write_number, part_refusal_number, part_number};

// Why a deck reads as no sheet.
#[derive(Clone, Copy, Debug, PartialEq, Eq)]
pub enum Fault {
    // A card is not 80 bytes and a line feed.
    Card,
    // The first card is not the header of a sheet whose size is one.
    Header,
    // Columns 73 to 80 are not the digits of the card's number.
    Number,
    // A cell is not 33 to 126.
    Cell,
    // A column after the cells is not blank.
    Blank,
    // A card is missing, or there are bytes after the last card.
    End,
    // The cell table's length is not the reader's.
    Table,
}

// The number of a fault.
impl From<Fault> for u16 {
    ghost from_gives = { λ fault number. number ≡ fault_number fault };

    fn from(fault: Fault) -> u16 {
        match fault {
            Fault::Card => 20,
            Fault::Header => 21,
            Fault::Number => 22,
            Fault::Cell => 23,
            Fault::Blank => 24,
            Fault::End => 25,
            Fault::Table => 26,
        }
    }
}

// What reading a deck refuses.
#[derive(Clone, Copy, Debug, PartialEq, Eq)]
pub struct ReadRefusal {
    pub fault: Fault,
    // The number of the card, counted from 1; 0 where the fault concerns no card.
    pub card: u16,
}

// What writing a deck refuses.
#[derive(Clone, Copy, Debug, PartialEq, Eq)]
pub enum WriteRefusal {
    // The width or the height is not 1 to the greatest.
    Size,
    // The sheet's length is not the width times the height.
    Sheet,
    // The deck's length is not that of this sheet's deck.
    Deck,
    // A label is not 33 to 126.
    Label,
}

// The number of a refusal to write.
impl From<WriteRefusal> for u16 {
    ghost from_gives = { λ refusal number. number ≡ write_refusal_number refusal };

    fn from(refusal: WriteRefusal) -> u16 {
        match refusal {
            WriteRefusal::Size => 1,
            WriteRefusal::Sheet => 3,
            WriteRefusal::Deck => 4,
            WriteRefusal::Label => 27,
        }
    }
}

// The number that an answer to writing tells: 0 for done, else that of the refusal.
pub fn write_number(answer: Result<(), WriteRefusal>) -> u16
    ensures { result ≡ write_number answer }
{
    match answer {
        Ok(()) => 0,
        Err(refusal) => refusal.into(),
    }
}

// Why the part of a card that holds its cells is empty.
#[derive(Clone, Copy, Debug, PartialEq, Eq)]
pub enum PartRefusal {
    // The width, how many cells the card holds, is not 1 to 72.
    Width,
    // The card is not 80 bytes and a line feed.
    Card,
}

// The number of a refusal of a part.
impl From<PartRefusal> for u16 {
    ghost from_gives = { λ refusal number. number ≡ part_refusal_number refusal };

    fn from(refusal: PartRefusal) -> u16 {
        match refusal {
            PartRefusal::Width => 1,
            PartRefusal::Card => 20,
        }
    }
}

// The number of what a part is refused for: 0 where it is not.
pub fn part_number(refusal: Option<PartRefusal>) -> u16
    ensures { result ≡ part_number refusal }
{
    match refusal {
        None => 0,
        Some(refusal) => refusal.into(),
    }
}
