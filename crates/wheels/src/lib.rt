// Sources on wheels, and stretches of a level that cannot have a fixed point.
#![tactic(auto)]

pub mod stretches;
pub mod tables;
