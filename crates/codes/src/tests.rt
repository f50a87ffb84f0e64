// The rules by example: games, codes and their pegs, and what guesses are told.
use crate::{Feedback, Game};

#[test]
fn the_largest_game_of_each_number_of_pegs(rt: HostRuntime) {
    // A number of pegs, the most colours that go with it, and how many codes that makes.
    let games = [
        (1, 16, 16),
        (2, 16, 256),
        (3, 6, 216),
        (4, 4, 256),
        (5, 3, 243),
        (6, 2, 64),
        (7, 2, 128),
        (8, 2, 256),
    ];
    for (pegs, colours, codes) in games {
        let game = Game::new(pegs, colours).expect(&rt, "taken");
        assert_eq!(rt; game.pegs(), pegs);
        assert_eq!(rt; game.colours(), colours);
        assert_eq!(rt; game.codes(), codes);
        assert!(rt; Game::new(pegs, colours.saturating_add(1)).is_none());
    }
}

#[test]
fn games_out_of_range_are_refused(rt: HostRuntime) {
    let games = [
        (0, 1),
        (1, 0),
        (0, 0),
        (9, 1),
        (255, 1),
        (1, 255),
        (8, 16),
        (255, 255),
    ];
    for (pegs, colours) in games {
        assert!(rt; Game::new(pegs, colours).is_none());
    }
}

#[test]
fn a_code_and_its_pegs(rt: HostRuntime) {
    let game = Game::new(4, 3).expect(&rt, "taken");
    assert_eq!(rt; game.pegs_of(66), [0, 1, 1, 2, 0, 0, 0, 0]);
    assert_eq!(rt; game.code_of(&[0, 1, 1, 2]), Some(66));
    assert_eq!(rt; game.pegs_of(80), [2, 2, 2, 2, 0, 0, 0, 0]);
    assert_eq!(rt; game.code_of(&[2, 2, 2, 2]), Some(80));
    assert_eq!(rt; game.code_of(&[]), None);
    assert_eq!(rt; game.code_of(&[0, 1, 1]), None);
    assert_eq!(rt; game.code_of(&[0, 1, 1, 2, 0]), None);
    assert_eq!(rt; game.code_of(&[0, 1, 3, 2]), None);
    assert_eq!(rt; game.code_of(&[255, 1, 1, 2]), None);
}

#[test]
fn a_colour_twice_in_the_guess_and_once_in_the_code_counts_once(rt: HostRuntime) {
    let told: [(&[u8], &[u8], Feedback); 4] = [
        (&[0, 1, 1, 2], &[1, 0, 1, 1], Feedback { right: 1, near: 2 }),
        (&[0, 1, 2], &[1, 0, 0], Feedback { right: 0, near: 2 }),
        (&[0, 1, 2], &[0, 0, 1], Feedback { right: 1, near: 1 }),
        (&[1, 0, 0], &[0, 1, 2], Feedback { right: 0, near: 2 }),
    ];
    for (code, guess, told) in told {
        let game = Game::new(code.len() as u8, 3).expect(&rt, "taken");
        let code = game.code_of(code).expect(&rt, "a code");
        let guess = game.code_of(guess).expect(&rt, "a code");
        assert_eq!(rt; game.feedback(code, guess), told);
    }
}

// What each guess is told of each code, ten times right and near, for 00 10 20 01 11 21 02 12 22.
const TWO_PEGS_OF_THREE: [[u16; 9]; 9] = [
    [20, 10, 10, 10, 0, 0, 10, 0, 0],
    [10, 20, 10, 2, 10, 1, 1, 10, 0],
    [10, 10, 20, 1, 0, 10, 2, 1, 10],
    [10, 2, 1, 20, 10, 10, 10, 1, 0],
    [0, 10, 0, 10, 20, 10, 0, 10, 0],
    [0, 1, 10, 10, 10, 20, 1, 2, 10],
    [10, 1, 2, 10, 0, 1, 20, 10, 10],
    [0, 10, 1, 1, 10, 2, 10, 20, 10],
    [0, 0, 10, 0, 0, 10, 10, 10, 20],
];

#[test]
fn all_pairs_of_two_pegs_of_three_colours(rt: HostRuntime) {
    let game = Game::new(2, 3).expect(&rt, "taken");
    for (guess, row) in TWO_PEGS_OF_THREE.iter().enumerate() {
        for (code, expected) in row.iter().enumerate() {
            let told = game.feedback(code as u16, guess as u16);
            assert_eq!(rt; 10 * told.right as u16 + told.near as u16, *expected);
            assert_eq!(rt; game.is_all_right(told), code == guess);
        }
    }
}

#[test]
fn feedback_of_more_pegs_than_there_are(rt: HostRuntime) {
    let game = Game::new(4, 3).expect(&rt, "taken");
    assert!(rt; game.allows(Feedback { right: 4, near: 0 }));
    assert!(rt; game.allows(Feedback { right: 0, near: 4 }));
    assert!(rt; game.allows(Feedback { right: 3, near: 1 }));
    assert!(rt; !game.allows(Feedback { right: 3, near: 2 }));
    assert!(rt;
        !game.allows(Feedback {
            right: 255,
            near: 255,
        })
    );
}

// A value that holds a game and feedback is copied when it is passed.
fn is_told(pair: (Game, Feedback)) -> bool {
    pair.0.is_all_right(pair.1)
}

#[test]
fn a_pair_of_a_game_and_feedback_is_passed_twice(rt: HostRuntime) {
    let game = Game::new(4, 3).expect(&rt, "taken");
    let pair = (game, Feedback { right: 4, near: 0 });
    assert!(rt; is_told(pair));
    assert!(rt; is_told(pair));
}
