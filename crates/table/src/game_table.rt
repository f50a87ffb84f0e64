// The table of a game: made in lent bytes when a game is opened, and read as feedback.
ghost use Rattle.std.specs.Prelude.{◌≡◌, length};
ghost use Rattle.std.specs.Option.{option_map};
ghost use Rattle.codes.specs.Codes.{how_many};
ghost use Rattle.codes.specs.Meaning.{as_game, as_told};
ghost use Rattle.table.specs.Table.{told_number, row_of, tabulated, shape_in, looked_up};

use crate::answers;
use crate::shape::Shape;
use codes::{Feedback, Game};

// Makes the table of a game at the front of lent bytes and gives its shape; bytes that are too few are left as they were.
pub fn tabulate(game: Game, table: &mut [u8]) -> Option<Shape>
    ensures value { result ≡ shape_in (as_game game) table.old }
    ensures after { table.new ≡ tabulated (as_game game) table.old }
{
    let shape = Shape::from(game);
    if table.len() < shape.size() {
        return None;
    }
    // `chunks_exact_mut` would hand out the rows, but of what they hold a proof then knows nothing.
    for guess in 0..shape.guesses {
        write_row(game, guess, &mut table[shape.row_range(guess)]);
    }
    Some(shape)
}

// What a code is told of a guess, by the table of a game.
pub fn look_up(game: Game, table: &[u8], guess: u16, code: u16) -> Option<Feedback>
    ensures { option_map as_told result ≡ looked_up (as_game game) table.now guess code }
{
    let number = Shape::from(game).entry(table, guess, code)?;
    answers::feedback(game, number)
}

// Writes what a guess is told of each code.
fn write_row(game: Game, guess: u16, row: &mut [u8])
    requires { length row.old ≡ how_many (as_game game) }
    ensures { row.new ≡ row_of (as_game game) guess }
{
    for (code, entry) in row.iter_mut().enumerate() {
        *entry = told(game, guess, code as u16);
    }
}

// What a guess is told of a code, by number.
fn told(game: Game, guess: u16, code: u16) -> u8
    ensures { result ≡ told_number (as_game game) guess code }
{
    answers::place(game, game.feedback(code, guess))
}
