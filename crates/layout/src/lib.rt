// The vocabulary of the cutting office: panels, kinds, rows, refusals, tasks and rectangles.
#![tactic(auto)]

pub mod change;
pub mod panel;
pub mod rect;
pub mod refusal;
pub mod row;
pub mod table;
pub mod task;
