// Numbers and tables by example.
use crate::{Shape, Table, answers, look_up, tabulate};
use codes::{Feedback, Game};

#[test]
fn how_many_answers_one_to_eight_pegs_have(rt: HostRuntime) {
    let counts = [3, 6, 10, 15, 21, 28, 36, 45];
    for (i, count) in counts.iter().enumerate() {
        let shape = Shape::from(Game::new(i as u8 + 1, 2).expect(&rt, "taken"));
        assert_eq!(rt; shape.answers, *count);
        assert_eq!(rt; shape.all_right, *count - 1);
    }
}

// What two pegs can be told, in order.
const TWO_PEGS: [(u8, u8); 6] = [(0, 0), (0, 1), (0, 2), (1, 0), (1, 1), (2, 0)];

#[test]
fn answers_go_by_right_and_then_near(rt: HostRuntime) {
    let game = Game::new(2, 3).expect(&rt, "taken");
    for (i, (right, near)) in TWO_PEGS.iter().enumerate() {
        let told = Feedback {
            right: *right,
            near: *near,
        };
        assert_eq!(rt; answers::number(game, told), Some(i as u8));
        assert_eq!(rt; answers::feedback(game, i as u8), Some(told));
    }
    assert_eq!(rt; answers::feedback(game, 6), None);
    assert_eq!(rt; answers::feedback(game, 255), None);
    assert_eq!(rt; answers::number(game, Feedback { right: 2, near: 1 }), None);
    assert_eq!(rt; answers::number(game, Feedback { right: 0, near: 3 }), None);
    assert_eq!(rt;
        answers::number(
            game,
            Feedback {
                right: 255,
                near: 255,
            },
        ),
        None
    );
}

#[test]
fn one_peg_of_three_colours(rt: HostRuntime) {
    let mut table = [7; 9];
    assert!(rt; tabulate(Game::new(1, 3).expect(&rt, "taken"), &mut table).is_some());
    assert_eq!(rt; table, [2, 0, 0, 0, 2, 0, 0, 0, 2]);
}

// Two pegs of two colours, a row for each of the guesses 00 10 01 11.
const TWO_OF_TWO: [u8; 16] = [5, 3, 3, 0, 3, 5, 2, 3, 3, 2, 5, 3, 0, 3, 3, 5];

#[test]
fn what_lies_past_the_table_is_left_alone(rt: HostRuntime) {
    let mut table = [7; 18];
    assert!(rt; tabulate(Game::new(2, 2).expect(&rt, "taken"), &mut table).is_some());
    assert_eq!(rt; &table[0..16], &TWO_OF_TWO[0..16]);
    assert_eq!(rt; &table[16..18], &[7, 7][0..2]);
}

#[test]
fn bytes_that_are_too_few_are_left_alone(rt: HostRuntime) {
    let mut table = [7; 15];
    assert!(rt; tabulate(Game::new(2, 2).expect(&rt, "taken"), &mut table).is_none());
    assert_eq!(rt; table, [7; 15]);
}

// Three pegs of two colours, a row for each of the guesses 000 100 010 110 001 101 011 111.
const THREE_OF_TWO: [[u8; 8]; 8] = [
    [9, 7, 7, 4, 7, 4, 4, 0],
    [7, 9, 6, 7, 6, 7, 2, 4],
    [7, 6, 9, 7, 6, 2, 7, 4],
    [4, 7, 7, 9, 2, 6, 6, 7],
    [7, 6, 6, 2, 9, 7, 7, 4],
    [4, 7, 2, 6, 7, 9, 6, 7],
    [4, 2, 7, 6, 7, 6, 9, 7],
    [0, 4, 4, 7, 4, 7, 7, 9],
];

#[test]
fn three_pegs_of_two_colours(rt: HostRuntime) {
    let mut bytes = [0; 64];
    let game = Game::new(3, 2).expect(&rt, "taken");
    let shape = tabulate(game, &mut bytes).expect(&rt, "bytes enough");
    let table = Table::new(shape, &bytes).expect(&rt, "bytes enough");
    for (guess, expected) in THREE_OF_TWO.iter().enumerate() {
        assert_eq!(rt; table.row(guess as u16), Some(&expected[..]));
    }
}

#[test]
fn what_is_told_of_a_code_is_looked_up(rt: HostRuntime) {
    let game = Game::new(2, 2).expect(&rt, "taken");
    let told = Feedback { right: 0, near: 2 };
    assert_eq!(rt; look_up(game, &TWO_OF_TWO, 1, 2), Some(told));
    assert_eq!(rt; look_up(game, &TWO_OF_TWO, 4, 2), None);
    assert_eq!(rt; look_up(game, &TWO_OF_TWO, 1, 4), None);
    assert_eq!(rt; look_up(game, &TWO_OF_TWO[0..15], 1, 2), None);
    assert_eq!(rt; look_up(game, &[6; 16], 1, 2), None);
}

#[test]
fn a_table_of_three_guesses_and_two_codes(rt: HostRuntime) {
    let shape = Shape {
        codes: 2,
        guesses: 3,
        answers: 4,
        all_right: 3,
    };
    let bytes = [3, 0, 1, 3, 2, 1];
    assert_eq!(rt; shape.size(), 6);
    assert!(rt; Table::new(shape, &bytes[..5]).is_none());
    let table = Table::new(shape, &bytes).expect(&rt, "bytes enough");
    assert_eq!(rt; table.row(1), Some(&[1, 3][0..2]));
    assert_eq!(rt; table.row(3), None);
    assert_eq!(rt; table.entry(2, 0), Some(2));
    assert_eq!(rt; table.entry(2, 1), Some(1));
    assert_eq!(rt; table.entry(0, 2), None);
    assert_eq!(rt; shape.row(&bytes, 1), Some(&[1, 3][0..2]));
    assert_eq!(rt; shape.row(&bytes, 3), None);
    assert_eq!(rt; shape.row(&bytes[..5], 1), None);
    assert_eq!(rt; shape.entry(&bytes, 2, 0), Some(2));
    assert_eq!(rt; shape.entry(&bytes, 2, 1), Some(1));
    assert_eq!(rt; shape.entry(&bytes, 0, 2), None);
    assert_eq!(rt; shape.entry(&bytes[..5], 2, 0), None);
}
