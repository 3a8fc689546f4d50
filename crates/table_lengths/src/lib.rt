// The stated lengths of the tables that a call is lent.
#![tactic(auto)]

ghost use Rattle.std.specs.Prelude.{◌≡◌};
ghost use Rattle.table_lengths.specs.Lengths.{all_are, lengths};

use point_darts::dart;
use sheet_size::Size;

// Whether some lengths are all n.
fn all_are(n: usize, lengths: &[usize]) -> bool
    ensures { result ≡ all_are n lengths.now }
{
    lengths.iter().all(|length| *length == n)
}

// Whether lengths of tables by name and of tables by dart are the stated ones: an entry for each name, that of the outside
// too, and an entry for each slot.
pub fn stated(size: Size, by_name: &[usize], by_dart: &[usize]) -> bool
    ensures { result ≡ lengths size.width size.height by_name.now by_dart.now }
{
    let names = (size.width * size.height + 1) as usize;
    if !all_are(names, by_name) {
        return false;
    }
    all_are(dart::slots(size) as usize, by_dart)
}
