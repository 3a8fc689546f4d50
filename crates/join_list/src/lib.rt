// Joining by a list of names, two by two, in a drawing that is known to be one.
#![tactic(auto)]

pub mod each;
mod pair;
