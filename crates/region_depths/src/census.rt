// The census of the tree of regions: the depth of every name at once.
ghost use Rattle.std.specs.Prelude.{◌≡◌, ◌≤◌, length};
ghost use Rattle.point_darts.specs.Dart.{mark};
ghost use Rattle.paper.specs.Enclosure.{depth};
ghost use Rattle.region_depths.specs.Tree.{Falls};
ghost use Rattle.region_depths.specs.Census.{counted_at, counts, Deepened};

use point_darts::dart;

// The depth of a name that is the outside or in use, from those of smaller names; the mark for any other name.
fn deeper(parent: &[u16], depths: &[u16], name: u16) -> u16
    requires { Deepened parent.now name depths.now }
    ensures { result ≡ counted_at depth parent.now name }
{
    if name == 0 {
        return 0;
    }
    let up = parent[name as usize];
    if up == dart::MARK {
        return dart::MARK;
    }
    depths[up as usize] + 1
}

// The depth of every name at once: of the outside and of each name in use; the mark for any other name.
pub fn all_depths(parent: &[u16], depths: &mut [u16])
    requires { Falls parent.now × (length parent.now ≤ mark) × (length depths.old ≡ length parent.now) }
    ensures { depths.new ≡ counts depth parent.now }
{
    for i in 0..parent.len() as u16 {
        depths[i as usize] = deeper(parent, depths, i);
    }
}
