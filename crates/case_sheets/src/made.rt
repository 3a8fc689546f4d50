ghost use Rattle.std.specs.Prelude.{◌≡◌, length};
ghost use Rattle.io.specs.Counts.{IsPrefixLen};

use crate::lent;

// Every cell differs from every other: the label of a cell is its name.
fn different(sheet: &mut [u16]) {
    let mut label: u16 = 0;
    for cell in sheet.iter_mut() {
        label = label.wrapping_add(1);
        *cell = label;
    }
}

// How many places lie on either side of a place among so many, on the side where they are fewer.
fn inward(place: usize, count: usize) -> usize {
    if place < count {
        return place.min(count - 1 - place);
    }
    0
}

// The label of a cell in squares round one another: how many squares lie round it.
fn square(i: usize, width: usize, height: usize) -> u16 {
    if width == 0 {
        return 0;
    }
    let across = inward(i % width, width);
    let down = inward(i / width, height);
    (across.min(down) % 65536) as u16
}

// Squares round one another.
fn squares(width: u16, height: u16, sheet: &mut [u16]) {
    for (i, cell) in sheet.iter_mut().enumerate() {
        *cell = square(i, width as usize, height as usize);
    }
}

// The next state of a linear congruential rule.
fn following(state: u16) -> u16 {
    state.wrapping_mul(25173).wrapping_add(13849)
}

// One of so many labels, by the upper half of a state.
fn chosen(state: u16, labels: u16) -> u16 {
    if labels == 0 {
        return 0;
    }
    (state / 256) % labels
}

// So many labels by chance, decided by a seed.
fn chance(seed: u16, labels: u16, sheet: &mut [u16]) {
    let mut state = seed;
    for cell in sheet.iter_mut() {
        state = following(state);
        *cell = chosen(state, labels);
    }
}

// Fills a sheet by the rule of a letter: D for cells that all differ, S for squares, C for chance, which takes a seed and a
// number of labels from the values. For any other letter the values are the labels.
fn fill(kind: u8, width: u16, height: u16, values: &[u16], sheet: &mut [u16]) {
    match kind {
        b'D' => different(sheet),
        b'S' => squares(width, height, sheet),
        b'C' => by_chance(values, sheet),
        _ => lent::copy(values, sheet),
    }
}

// Labels by chance, from a seed and a number of labels.
fn by_chance(values: &[u16], sheet: &mut [u16]) {
    if 1 < values.len() {
        chance(values[0], values[1], sheet);
    }
}

// Makes a sheet in the front of the room lent, and answers how many cells it has.
pub fn sheet(kind: u8, width: u16, height: u16, values: &[u16], room: &mut [u16]) -> usize
    ensures { IsPrefixLen result room.new }
{
    let n = lent::most(lent::cells(width, height), room);
    fill(kind, width, height, values, &mut room[..n]);
    lent::most(n, room)
}

// Room for the cells of a sheet, and a few more.
pub fn room() -> [u16; 8192]
    ensures { 8192 ≡ length result }
{
    [0; 8192]
}
