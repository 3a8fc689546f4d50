// What the four cells round a point tell: its lines and their sides.
#![tactic(auto)]

pub mod point;
