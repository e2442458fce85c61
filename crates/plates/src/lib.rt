// The plate text: a plate to be inspected, line by line, and what is printed for it.
#![tactic(auto)]

pub mod check;
mod fit;
mod lines;
pub mod plate;
pub mod read;
pub mod unread;
