ghost use Rattle.std.specs.Prelude.{◌≤◌, ◌<◌, length};
ghost use Rattle.case_sheets.specs.Room.{room};

// How long a table of a program can be: a few entries more than the greatest number of slots.
pub const ROOM: usize = 32416;

// What a table holds before a call.
pub const UNTOUCHED: u16 = 7;

// A count, or the length of the table where it is more.
pub fn most<T>(count: usize, table: &[T]) -> usize
    ensures { result ≤ length table.now }
{
    count.min(table.len())
}

// The product of two numbers up to 65,536.
fn product(a: usize, b: usize) -> usize
    requires { (a ≤ 65536) × (b ≤ 65536) }
    ensures { result ≤ 4294967296 }
{
    a * b
}

// The number of cells of a sheet.
pub fn cells(width: u16, height: u16) -> usize
    ensures { result ≤ 4294967296 }
{
    product(width as usize, height as usize)
}

// The number of names of a sheet, with that of the outside, or 65535 where it is more.
pub fn names(width: u16, height: u16) -> u16 {
    limited(cells(width, height) + 1)
}

// A count, or 65535 where it is more.
fn limited(count: usize) -> u16 {
    count.min(65535) as u16
}

// The number of slots of a sheet, or 65535 where it is more.
pub fn slots(width: u16, height: u16) -> u16 {
    limited(4 * product(width as usize + 1, height as usize + 1))
}

// The entries of a table from a place on; none where the place is past the end.
pub fn from(table: &[u16], place: usize) -> &[u16] {
    &table[most(place, table)..]
}

// The entries of a table from a place up to another, or those of them that it has.
pub fn part(table: &[u16], start: usize, end: usize) -> &[u16] {
    from(&table[..most(end, table)], start)
}

// The length at a place of a list of lengths, or the greatest that there is room for.
pub fn length(lengths: &[u16], place: usize) -> usize
    ensures { result ≤ room }
{
    match lengths.get(place) {
        Some(length) => ROOM.min(*length as usize),
        None => 0,
    }
}

// Copies the entries of a table to the front of another, as many as both have.
pub fn copy(table: &[u16], to: &mut [u16]) {
    for (to, entry) in to.iter_mut().zip(table) {
        *to = *entry;
    }
}

// Whether each entry is a value. It goes to the end: a chain by `all` takes more than twice as long.
pub fn all_are(table: &[u16], value: u16) -> bool {
    let mut all = true;
    for entry in table {
        all = all & (*entry == value);
    }
    all
}

// A sum with one entry more.
fn summed(sum: u64, entry: u16) -> u64
    requires { sum < 1000003 }
    ensures { result < 1000003 }
{
    (sum * 31 + entry as u64 + 1) % 1000003
}

// A number that a table with another entry hardly has too.
pub fn sum(table: &[u16]) -> u64 {
    let mut sum = 0;
    for entry in table {
        sum = summed(sum, *entry);
    }
    sum
}
