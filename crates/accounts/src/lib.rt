// Accounts: how many pieces of each kind were ordered, and how many were counted off plates.
#![tactic(auto)]

pub mod account;
#[cfg(test)]
mod tests;
