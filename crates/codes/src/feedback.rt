// What a guess is told of a code.
ghost use Rattle.std.specs.Prelude.{◌≡◌, ℕ, ◌+◌, ◌<◌, ◌≤◌, true, length, ◌==◌, nat_le, slice_index};
ghost use Rattle.codes.specs.Codes.{at_place, of_colour, in_common, told_of};
ghost use Rattle.codes.specs.Meaning.{as_game, as_told};
ghost use Rattle.codes.specs.Pegs.{coloured};

use crate::game::Game;

// How many pegs are right, of the code's colour at their place, and how many more are near, of a colour that it has elsewhere.
// It has no `impl Model`, for the reason that `Game` has none.
#[derive(Clone, Copy, PartialEq, Debug)]
pub struct Feedback {
    pub right: u8,
    pub near: u8,
}

impl Game {
    // What a guess is told of a code.
    pub fn feedback(self, code: u16, guess: u16) -> Feedback
        ensures { as_told result ≡ told_of (as_game self) code guess }
    {
        let pegs = self.pegs() as usize;
        let code_row = self.pegs_of(code);
        let guess_row = self.pegs_of(guess);
        let right = at_place(&code_row[..pegs], &guess_row[..pegs]);
        let common = in_common(self.colours(), &code_row[..pegs], &guess_row[..pegs]);
        Feedback {
            right,
            near: common - right,
        }
    }

    // Whether feedback says that all pegs are right.
    pub fn is_all_right(self, feedback: Feedback) -> bool
        ensures { result ≡ ((as_told feedback).right == (as_game self).pegs) }
    {
        feedback.right == self.pegs()
    }

    // Whether feedback is of no more pegs than the game has.
    pub fn allows(self, feedback: Feedback) -> bool
        ensures { result ≡ nat_le ((as_told feedback).right + (as_told feedback).near) (as_game self).pegs }
    {
        feedback.right as u16 + feedback.near as u16 <= self.pegs() as u16
    }
}

// How many pegs of two rows are the same at the same place.
// By index: of a sum over pairs the check proves one body, and refuses every other alike, wrong or right.
fn at_place(code: &[u8], guess: &[u8]) -> u8
    requires lengths { length code.now ≡ length guess.now }
    requires short { length code.now ≤ 8 }
    ensures { result ≡ at_place code.now guess.now }
{
    let mut right = 0;
    for i in 0..code.len() {
        if code[i] == guess[i] {
            right += 1;
        }
    }
    right
}

// How many pegs of a row are of each colour, of sixteen: an array, since nothing here allocates.
#[tactic(auto, using(crate::proofs::Digits::colour_at, crate::proofs::Tallies::tally_lt))]
fn tally(row: &[u8]) -> [u8; 16]
    requires short { length row.now ≤ 8 }
    requires known { coloured 16 row.now ≡ true }
    ensures { (c : ℕ) → c < 16 → slice_index result c ≡ of_colour c row.now }
{
    let mut counts = [0; 16];
    for peg in row {
        counts[*peg as usize] += 1;
    }
    counts
}

// How many pegs two rows have in common, at whatever places: of each colour the smaller of both numbers.
// By index, as `at_place`.
fn in_common(colours: u8, code: &[u8], guess: &[u8]) -> u8
    requires few { colours ≤ 16 }
    requires short { (length code.now ≤ 8) × (length guess.now ≤ 8) }
    requires known { (coloured 16 code.now ≡ true) × (coloured 16 guess.now ≡ true) }
    ensures { result ≡ in_common colours code.now guess.now }
{
    let code_tally = tally(code);
    let guess_tally = tally(guess);
    let mut common = 0;
    for colour in 0..colours as usize {
        common += code_tally[colour].min(guess_tally[colour]);
    }
    common
}
