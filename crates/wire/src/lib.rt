// Calls and answers as enums, and their bytes. specs/Format.antt says which bytes are which.
#![tactic(auto)]

mod answer;
mod call;
pub mod laws;
mod refusal;
mod row;

pub use answer::Answer;
pub use call::Call;
pub use refusal::Refusal;
pub use row::{Garbled, TooShort};

#[cfg(test)]
mod tests;
