// Inspection of plates: whether a list of rows is lawful and comes apart.
#![tactic(auto)]

mod cutting;
mod groups;
pub mod inspect;
pub mod limits;
pub mod pinwheel;
mod places;
mod plate;
mod stages;
#[cfg(test)]
mod tests;
pub mod verdict;
