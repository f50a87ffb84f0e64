// What each code is told of each guess, by number, in lent bytes.
#![tactic(auto)]

pub mod answers;
mod game_table;
pub mod laws;
mod shape;
mod view;

pub use game_table::{look_up, tabulate};
pub use shape::Shape;
pub use view::Table;

#[cfg(test)]
mod tests;
