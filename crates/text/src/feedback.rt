// A line of feedback, as `feedback 4 3 0112 1011`: pegs, colours, a code and a guess.
ghost use Rattle.std.specs.Prelude.{◌≡◌, map, IfOk, IfErr};
ghost use Rattle.text.specs.Fields.{value, number_in};
ghost use Rattle.text.specs.Lines.{feedback_from};
ghost use Rattle.text.specs.Meaning.{means, Refuses};

use crate::cursor::{Cursor, hex_digit};
use crate::{Line, LineError};
use std::alloc::{AllocError, Global};

// The feedback whose fields fill a line from the cursor on.
pub(crate) fn read_feedback(heap: Global, mut line: Cursor) -> Result<Line, LineError>
    ensures ok { IfOk result (λ l. means l ≡ feedback_from line.entry.at line.entry.text.now) }
    ensures err { IfErr result (λ e. Refuses e (feedback_from line.entry.at line.entry.text.now)) }
{
    let pegs = line.field(10)?;
    let colours = line.field(10)?;
    let code = line.field(16)?;
    let guess = line.field(16)?;
    line.end()?;
    Ok(Line::Feedback {
        pegs: number(pegs),
        colours: number(colours),
        code: row(heap, code)?,
        guess: row(heap, guess)?,
    })
}

// The number that decimal digits write, and 255 of a larger one: no game has so many pegs, and it is refused as a game.
fn number(digits: &[u8]) -> u8
    ensures { result ≡ number_in digits.now }
{
    digits.iter().fold(
        0u8,
        |n, c| n.saturating_mul(10).saturating_add(digit_value(*c)),
    )
}

// The values of digits.
fn row(heap: Global, digits: &[u8]) -> Result<Vec<u8>, AllocError>
    ensures { IfOk result (λ v. v.items ≡ map value digits.now) }
{
    digits.iter().map(|c| digit_value(*c)).collect(heap)
}

// The value of a digit, and 0 of any other character, as the definition has it: no contract here need say that all are digits.
fn digit_value(c: u8) -> u8
    ensures { result ≡ value c }
{
    hex_digit(c).unwrap_or(0)
}
