// Each call and each answer by its bytes written out, rows that are none, and buffers that are too short.
use crate::{Answer, Call, Garbled, Refusal, TooShort};
use std::process::Abort;

// Writing puts a row at the front of a buffer of sevens, a byte longer than the longest row.
fn writes<W: FnOnce(&mut [u8]) -> Result<usize, TooShort>>(
    rt: &impl Abort,
    row: &[u8],
    out: &mut [u8],
    write: W,
)
    requires { W.IsAlwaysCallable write }
{
    assert_eq!(rt; write(&mut *out), Ok(row.len()));
    let rest = out.strip_prefix(row);
    assert!(rt; rest.is_some_and(|rest| rest.iter().all(|byte| *byte == 7)));
}

#[test]
fn each_call_by_its_bytes(rt: HostRuntime) {
    let told = Call::Told {
        guess: 513,
        right: 3,
        near: 4,
    };
    let calls: [(Call, &[u8]); 5] = [
        (told, &[0, 1, 2, 3, 4]),
        (Call::Back, &[1]),
        (Call::Left, &[2]),
        (Call::CouldBe(65280), &[3, 0, 255]),
        (Call::Advise, &[4]),
    ];
    for (call, row) in calls {
        assert_eq!(rt; Call::try_from(row), Ok(call));
        writes(&rt, row, &mut [7; 6], |out| call.write(out));
    }
}

#[test]
fn a_row_is_garbled_at_its_first_byte_that_does_not_fit(rt: HostRuntime) {
    let rows: [(&[u8], u32); 11] = [
        (&[], 0),
        (&[5], 0),
        (&[255, 0], 0),
        (&[0], 1),
        (&[0, 1, 2, 3], 4),
        (&[0, 1, 2, 3, 4, 5], 5),
        (&[1, 0], 1),
        (&[2, 0], 1),
        (&[3, 1], 2),
        (&[3, 1, 2, 3], 3),
        (&[4, 4], 1),
    ];
    for (row, place) in rows {
        assert_eq!(rt; Call::try_from(row), Err(Garbled { place }));
    }
    assert_eq!(rt;
        Answer::from(Garbled { place: 4 }),
        Answer::Refused {
            number: 1,
            place: 4,
        }
    );
}

#[test]
fn each_answer_by_its_bytes(rt: HostRuntime) {
    let refused = Answer::Refused {
        number: 7,
        place: 258,
    };
    let answers: [(Answer, &[u8]); 3] = [
        (refused, &[0, 7, 0, 0, 0, 2, 1, 0, 0]),
        (Answer::Number(67305985), &[1, 1, 2, 3, 4]),
        (
            Answer::Two(256, 4294967295),
            &[2, 0, 1, 0, 0, 255, 255, 255, 255],
        ),
    ];
    for (answer, row) in answers {
        assert_eq!(rt; Answer::try_from(row), Ok(answer));
        writes(&rt, row, &mut [7; 10], |out| answer.write(out));
    }
    let rows: [(&[u8], u32); 3] = [(&[3], 0), (&[1, 0, 0, 0], 4), (&[1, 0, 0, 0, 0, 0], 5)];
    for (row, place) in rows {
        assert_eq!(rt; Answer::try_from(row), Err(Garbled { place }));
    }
}

#[test]
fn an_array_is_read_as_a_row(rt: HostRuntime) {
    assert_eq!(rt; Call::read(&[3, 0, 255]), Ok(Call::CouldBe(65280)));
    assert_eq!(rt; Call::read(&[4, 4]), Err(Garbled { place: 1 }));
    assert_eq!(rt;
        Answer::read(&[1, 1, 2, 3, 4]),
        Ok(Answer::Number(67305985))
    );
    assert_eq!(rt; Answer::read(&[3]), Err(Garbled { place: 0 }));
}

#[test]
fn a_short_buffer_is_left_as_it_was(rt: HostRuntime) {
    let mut out = [7; 4];
    assert_eq!(rt;
        Answer::Number(1).write(&mut out),
        Err(TooShort { needed: 5 })
    );
    assert_eq!(rt;
        Call::CouldBe(1).write(&mut out[0..2]),
        Err(TooShort { needed: 3 })
    );
    assert_eq!(rt; out, [7; 4]);
}

#[test]
fn each_refusal_by_its_number(rt: HostRuntime) {
    let refusals = [
        Refusal::Unreadable,
        Refusal::MorePegs,
        Refusal::NoSuchGame,
        Refusal::NoSuchCode,
        Refusal::NothingLeft,
        Refusal::PastLimit,
        Refusal::TooManyLeft,
    ];
    assert_eq!(rt; refusals.map(u32::from), [1, 2, 3, 4, 5, 6, 7]);
}
