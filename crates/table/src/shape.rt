// A table's shape.
ghost use Rattle.std.specs.Prelude.{◌≡◌, ◌+◌, ◌*◌};
ghost use Rattle.table.specs.Table.{size};

use crate::answers;
use codes::Game;
use std::ops::Range;

// So many codes, guesses and answers, and the number of the answer that is all right.
#[derive(Clone, Copy)]
pub struct Shape {
    pub codes: u16,
    pub guesses: u16,
    pub answers: u8,
    pub all_right: u8,
}

// The shape of a game's table: every code is a guess.
impl From<Game> for Shape {
    ghost use Rattle.codes.specs.Meaning.{as_game};
    ghost use Rattle.table.specs.Table.{shape_of};

    ghost from_gives = { λ game shape. shape ≡ shape_of (as_game game) };

    fn from(game: Game) -> Shape {
        Shape {
            codes: game.codes(),
            guesses: game.codes(),
            answers: answers::count(game),
            all_right: answers::all_right(game),
        }
    }
}

impl Shape {
    // How many bytes a table of this shape takes.
    pub fn size(self) -> usize
        ensures { result ≡ size self }
    {
        self.guesses as usize * self.codes as usize
    }

    // Where the row of a guess lies in a table.
    pub(crate) fn row_range(self, guess: u16) -> Range<usize>
        ensures start { result.start ≡ guess * self.codes }
        ensures end { result.end ≡ guess * self.codes + self.codes }
    {
        let start = guess as usize * self.codes as usize;
        start..start + self.codes as usize
    }
}
