// A game: so many pegs, each of so many colours, and how many codes that makes.
ghost use Rattle.std.specs.Prelude.{◌≡◌};
ghost use Rattle.codes.specs.Codes.{how_many};
ghost use Rattle.codes.specs.Pegs.{game_of};
ghost use Rattle.codes.specs.Promise.{Taken};

mod rows;
mod taken;

// A game that is taken. It has no `impl Model`, which would keep the values that hold a game from being copied.
#[derive(Clone, Copy)]
pub struct Game {
    pegs: u8,
    colours: u8,
    codes: u16,
    ghost taken: { Taken (game_of pegs colours) },
    ghost counted: { codes ≡ how_many (game_of pegs colours) },
}
