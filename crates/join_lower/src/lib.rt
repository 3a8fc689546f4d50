// Step 5 of the removal rule, sides: the names a and b become the smaller of the two.
#![tactic(auto, unfolding(point_darts::specs::Dart::mark))]

pub mod side;
