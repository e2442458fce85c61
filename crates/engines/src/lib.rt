// The two named cutting rules as code: each writes the pattern that it names, in lent memory alone.
#![tactic(auto)]

mod choice;
mod counting;
mod dividing;
mod filling;
mod laying;
pub mod meaning;
mod numbers;
mod segment;
mod stacking;
mod staging;
pub mod three_staged;
pub mod two_staged;
