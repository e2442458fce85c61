// Cutting rules: what a rule means, and the layers that stand above any rule.
#![tactic(auto)]

pub mod best;
pub mod better;
pub mod rule;
pub mod saw;
pub mod trimming;
pub mod turning;
