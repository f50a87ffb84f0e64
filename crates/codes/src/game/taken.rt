// Which games are taken, and what they have.
ghost use Rattle.std.specs.Prelude.{◌≡◌, ◌^◌, ◌<◌, Some, None, MatchOption};
ghost use Rattle.std.specs.Option.{SomeIff, option_map};
ghost use Rattle.codes.specs.Codes.{pick, power, how_many};
ghost use Rattle.codes.specs.Meaning.{as_game};
ghost use Rattle.codes.specs.Pegs.{game_of, is_taken};
ghost use Rattle.codes.specs.Promise.{Taken};

use crate::game::Game;

impl Game {
    // The game of so many pegs and colours, if it is taken.
    pub fn new(pegs: u8, colours: u8) -> Option<Game>
        ensures made { option_map as_game result ≡ pick (is_taken (game_of pegs colours)) (Some (game_of pegs colours)) None }
        ensures exactly { MatchOption result (Taken (game_of pegs colours) → ⊥) (λ _. Taken (game_of pegs colours)) }
    {
        let codes = count_codes(pegs, colours)?;
        if pegs == 0 || pegs > 8 || colours == 0 || colours > 16 || codes > 256 {
            return None;
        }
        Some(Game {
            pegs,
            colours,
            codes,
        })
    }

    pub fn pegs(self) -> u8
        ensures value { result ≡ (as_game self).pegs }
        ensures taken { Taken (as_game self) }
    {
        self.pegs
    }

    pub fn colours(self) -> u8
        ensures { result ≡ (as_game self).colours }
    {
        self.colours
    }

    pub fn codes(self) -> u16
        ensures { result ≡ how_many (as_game self) }
    {
        self.codes
    }
}

// How many codes so many pegs and colours make, if the number fits.
fn count_codes(pegs: u8, colours: u8) -> Option<u16>
    ensures { SomeIff result (power colours pegs < 2 ^ 16) (power colours pegs) }
{
    (colours as u16).checked_pow(pegs as u32)
}
