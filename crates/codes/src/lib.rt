// Codes, their pegs, and what a guess is told. specs/Codes.antt, specs/Calls.antt and specs/Promise.antt are the rule book.
#![tactic(auto)]

mod feedback;
mod game;
pub mod laws;

pub use feedback::Feedback;
pub use game::Game;

#[cfg(test)]
mod tests;
