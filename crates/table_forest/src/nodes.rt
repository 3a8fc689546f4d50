ghost use Rattle.std.specs.Prelude.{◌≡◌, cond, List, map, ℕ, suc, ◌<◌, ◌≤◌, min, eqb, length, get_or};
ghost use Rattle.laws.specs.Least.{lower, tie};
ghost use Rattle.table_forest.specs.Forest.{Forest, Grown, Planted, Found};

// A forest in a table: each node's entry is a node no greater, of the same tree; a root's entry is the root itself.

// The root of a node. Each node on the way is led past the next.
pub fn find(nodes: &mut [u16], i: u16) -> u16
    requires { Planted i nodes.old }
    ensures { (p : Planted i nodes.old) → Found p.nodes p.labels i nodes.new result }
{
    let mut node = i;
    loop {
        let up = nodes[node as usize];
        if up == node {
            return node;
        }
        let past = nodes[up as usize];
        nodes[node as usize] = past;
        node = past;
    }
}

// Two roots become one tree: the larger leads to the smaller, which is the answer.
pub fn link(nodes: &mut [u16], a: u16, b: u16) -> u16
    requires { (a < length nodes.old) × (b < length nodes.old) }
    ensures smaller { result ≡ min a b }
    ensures linked { (m : ℕ) (l : List ℕ) → Forest m l nodes.old → a < m → b < m → get_or l a 0 ≡ a → get_or l b 0 ≡ b →
        Forest m (map (lower a b) l) nodes.new }
{
    if a < b {
        nodes[b as usize] = a;
        a
    } else {
        nodes[a as usize] = b;
        b
    }
}

// Node j, or in its stead node k where j is node i itself.
fn instead(i: u16, j: u16, k: u16) -> u16
    ensures { result ≡ cond (eqb j i) k j }
{
    if j == i { k } else { j }
}

// A node more, in one tree with two nodes that are no later. The node itself stands for none. Most often the entries of the
// two are one, and the node gets it; only where they differ are the roots found and linked. Where one of the two is the node
// itself, the other is taken twice, so that whether the entries differ is all that is hard to foresee.
pub fn plant(nodes: &mut [u16], i: u16, j: u16, k: u16)
    requires { Grown i nodes.old × (i < length nodes.old) × (j ≤ i) × (k ≤ i) }
    ensures { (g : Grown i nodes.old) →
        Forest (suc i) (tie i k (tie i j g.labels)) nodes.new }
{
    nodes[i as usize] = i;
    let first = instead(i, j, k);
    let second = instead(i, k, j);
    let a = nodes[first as usize];
    let b = nodes[second as usize];
    nodes[i as usize] = a;
    if a == b {
        return;
    }
    let x = find(nodes, a);
    let y = find(nodes, b);
    let root = link(nodes, x, y);
    nodes[i as usize] = root;
}

// Each node comes to lead to its root at once.
pub fn flatten(nodes: &mut [u16])
    requires { Grown (length nodes.old) nodes.old }
    ensures { (g : Grown (length nodes.old) nodes.old) → nodes.new ≡ g.labels }
{
    for i in 0..nodes.len() {
        let up = nodes[i];
        nodes[i] = nodes[up as usize];
    }
}
