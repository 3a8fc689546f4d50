// A forest in a table, grown node by node: each node leads to the root of its tree.
#![tactic(auto)]

pub mod nodes;
