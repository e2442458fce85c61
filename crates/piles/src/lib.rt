// The simplest rule, as an example of how a rule is added, and piles above it.
#![tactic(auto)]

pub mod nothing;
#[cfg(test)]
mod tests;
