// Why a call, or a game, is turned away.
ghost use Rattle.std.specs.Prelude.{◌≡◌};
ghost use Rattle.wire.specs.Meaning.{refusal_number};

// A refusal, by its number.
#[derive(Clone, Copy, Debug, PartialEq, Eq)]
pub enum Refusal {
    // A row that cannot be read.
    Unreadable = 1,
    // More pegs told of than there are.
    MorePegs = 2,
    // A game that is not taken, or memory that is too small.
    NoSuchGame = 3,
    // A code that the game does not have.
    NoSuchCode = 4,
    // Taking back with no guess, or advice with no code left.
    NothingLeft = 5,
    // More guesses than the limit.
    PastLimit = 6,
    // Advice with more than 64 codes left.
    TooManyLeft = 7,
}

// The refusal's number.
impl From<Refusal> for u32 {
    ghost from_gives = { λ refusal result. result ≡ refusal_number refusal };

    fn from(refusal: Refusal) -> u32 {
        refusal as u32
    }
}
