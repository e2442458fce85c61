// The order text: reading it to its last byte, and what is printed for it.
#![tactic(auto)]

mod check;
pub mod judge;
mod lines;
pub mod order;
pub mod read;
pub mod unread;
