// Codes and their rows of pegs.
ghost use Rattle.std.specs.Prelude.{◌≡◌, ◌-◌, take, drop, replicate};
ghost use Rattle.codes.specs.Codes.{pegs_of};
ghost use Rattle.codes.specs.Meaning.{as_game};
ghost use Rattle.codes.specs.Pegs.{code_of};

use crate::game::Game;

impl Game {
    // The pegs of a code, the first peg first, and 0 behind them: an array, since nothing here allocates.
    pub fn pegs_of(self, code: u16) -> [u8; 8]
        ensures pegs { take (as_game self).pegs result ≡ pegs_of (as_game self) code }
        ensures rest { drop (as_game self).pegs result ≡ replicate (8 - (as_game self).pegs) 0 }
    {
        let colours = self.colours() as u16;
        let mut row = [0; 8];
        let mut rest = code;
        for peg in &mut row[..self.pegs() as usize] {
            *peg = (rest % colours) as u8;
            rest /= colours;
        }
        row
    }

    // The code that has a row of pegs; none where the number of pegs, or the colour of one, is not the game's.
    pub fn code_of(self, row: &[u8]) -> Option<u16>
        ensures { result ≡ code_of (as_game self) row.now }
    {
        if row.len() != self.pegs() as usize {
            return None;
        }
        let colours = self.colours();
        let mut code = 0;
        for peg in row.iter().rev() {
            if *peg >= colours {
                return None;
            }
            code = code * colours as u16 + *peg as u16;
        }
        Some(code)
    }
}
