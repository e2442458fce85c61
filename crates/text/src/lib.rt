// Reading lines of text field by field, the place of a fault, and what is printed of it.
#![tactic(auto)]

pub mod fields;
pub mod lines;
pub mod place;
pub mod report;
pub mod stop;
