// Lines of text: what a line asks (specs/Lines.antt), and calls, feedback and refusals in words (specs/Words.antt).
#![tactic(auto)]

mod cursor;
mod feedback;
mod line;
mod words;

pub use line::{Line, LineError};
pub use words::{InWords, Refused, Told};
