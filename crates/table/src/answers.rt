// The ways of being told, by number: the place of each in the rule book's list, by right and then near. A table holds one in a
// byte, so they stay numbers.
ghost use Rattle.std.specs.Prelude.{◌≡◌, ◌+◌, ◌<◌, ◌≤◌, length};
ghost use Rattle.std.specs.Option.{option_map};
ghost use Rattle.std.specs.List.{slice_get};
ghost use Rattle.codes.specs.Meaning.{as_game, as_told};
ghost use Rattle.table.specs.Answers.{answers, answer_number, Allowed, numbered, all_right, fewer_right};

use codes::{Feedback, Game};

// How many ways of being told a game has.
pub fn count(game: Game) -> u8
    ensures { result ≡ length (answers (as_game game)) }
{
    first_with(game.pegs(), game.pegs() + 1)
}

// The number of all right.
pub fn all_right(game: Game) -> u8
    ensures { result ≡ answer_number (as_game game) (all_right (as_game game)) }
{
    place(
        game,
        Feedback {
            right: game.pegs(),
            near: 0,
        },
    )
}

// The number of feedback; none where it is of more pegs than the game has.
pub fn number(game: Game, feedback: Feedback) -> Option<u8>
    ensures { result ≡ numbered (as_game game) (as_told feedback) }
{
    game.allows(feedback).then(|| place(game, feedback))
}

// The number of feedback that the game allows.
pub(crate) fn place(game: Game, feedback: Feedback) -> u8
    requires { Allowed (as_game game) (as_told feedback) }
    ensures { result ≡ answer_number (as_game game) (as_told feedback) }
{
    first_with(game.pegs(), feedback.right) + feedback.near
}

// The feedback that has a number; none where there are not so many.
pub fn feedback(game: Game, number: u8) -> Option<Feedback>
    ensures { option_map as_told result ≡ slice_get (answers (as_game game)) number }
{
    let pegs = game.pegs();
    let mut near = number;
    for right in 0..pegs + 1 {
        if near <= pegs - right {
            return Some(Feedback { right, near });
        }
        near -= pegs - right + 1;
    }
    None
}

// The first number of feedback with so many right: as many have fewer.
fn first_with(pegs: u8, right: u8) -> u8
    requires few { pegs ≤ 8 }
    requires most { right ≤ pegs + 1 }
    ensures value { result ≡ fewer_right pegs right }
    ensures small { result < 100 }
{
    right * (2 * pegs + 3 - right) / 2
}
