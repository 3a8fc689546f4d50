// The tree of regions: the depth of one name, from the table of parents.
ghost use Rattle.std.specs.Prelude.{◌≡◌, true, ◌≤◌, ◌<◌, length};
ghost use Rattle.paper.specs.Enclosure.{depth};
ghost use Rattle.region_depths.specs.Tree.{known, Falls};

// How many parents up from a name the outside is. Each parent has a smaller name.
pub fn depth(parent: &[u16], name: u16) -> u16
    requires { Falls parent.now × (name < length parent.now) × (known parent.now name ≡ true) }
    ensures { (result ≡ depth parent.now name) × (result ≤ name) }
{
    let up = parent[name as usize];
    if up < name { depth(parent, up) + 1 } else { 0 }
}
