// An answer, and its bytes.
ghost use Rattle.std.specs.Prelude.{◌≡◌, ◌↔◌, List, [], ◌∷◌, ◌++◌, length, Ok, IsSome, IfSome, MatchOption};
ghost use Rattle.codes.specs.Calls.{Limits, Asked, answer, garbled};
ghost use Rattle.codes.specs.Codes.{Game};
ghost use Rattle.wire.specs.Format.{answer_forms, answer_of, answer_bytes};
ghost use Rattle.wire.specs.Meaning.{says, answered, NoRow, put_in, put_said};
ghost use Rattle.wire.specs.Rows.{values, low_first};

use crate::refusal::Refusal;
use crate::row::{Garbled, TooShort, misfit, put};

// What a desk answers, by the numbers 0 to 2: a refusal's number and its place; a number; two numbers. A refusal that is read
// may have any number of four bytes, so it is no `Refusal`.
#[derive(Clone, Copy, Debug, PartialEq, Eq)]
pub enum Answer {
    Refused { number: u32, place: u32 },
    Number(u32),
    Two(u32, u32),
}

// How many bytes each answer has, by its number: the format's, as of a call.
const LENGTHS: [u8; 3] = [9, 5, 9];

// The answer that a row of bytes is, or the first byte that does not fit.
impl TryFrom<&[u8]> for Answer {
    type Error = Garbled;

    ghost try_from_gives = { λ row result. answered result ≡ answer_of row.now };

    fn try_from(row: &[u8]) -> Result<Answer, Garbled> {
        parse(row).ok_or_else(|| misfit(row, &LENGTHS))
    }
}

impl Answer {
    // As `try_from`, and takes an array too.
    pub fn read(row: &[u8]) -> Result<Answer, Garbled>
        ensures { answered result ≡ answer_of row.now }
    {
        Answer::try_from(row)
    }

    // Writes the answer's bytes to the front of a buffer and says how many; one that is too short is left as it was.
    pub fn write(self, out: &mut [u8]) -> Result<usize, TooShort>
        ensures value { result ≡ put_said (answer_bytes (says self)) out.old }
        ensures after { out.new ≡ put_in (answer_bytes (says self)) out.old }
    {
        match self {
            Answer::Refused { number, place } => put(&pair(0, number, place), out),
            Answer::Number(n) => {
                let [a, b, c, d] = n.to_le_bytes();
                put(&[1, a, b, c, d], out)
            }
            Answer::Two(m, n) => put(&pair(2, m, n), out),
        }
    }
}

// How a row that cannot be read is answered, whatever was asked before it.
impl From<Garbled> for Answer {
    ghost from_gives = { λ row result. (l : Limits) (g : Game) (asked : List Asked) →
        says result ≡ answer l g asked (garbled row.place) };

    #[tactic(auto, unfolding(codes::specs::Calls::turned, codes::specs::Calls::place))]
    fn from(row: Garbled) -> Answer {
        Answer::Refused {
            number: Refusal::Unreadable.into(),
            place: row.place,
        }
    }
}

// The answer that a row of bytes is, if it is one.
fn parse(row: &[u8]) -> Option<Answer>
    ensures { MatchOption result (NoRow answer_forms row.now) (λ a. answer_of row.now ≡ Ok (says a)) }
{
    match row {
        [0, fields @ ..] => {
            let (number, place) = two_numbers(fields)?;
            Some(Answer::Refused { number, place })
        }
        [1, number @ ..] => Some(Answer::Number(u32::from_le_bytes(*number.as_array()?))),
        [2, fields @ ..] => {
            let (m, n) = two_numbers(fields)?;
            Some(Answer::Two(m, n))
        }
        _ => None,
    }
}

// Two numbers, from four bytes each.
fn two_numbers(fields: &[u8]) -> Option<(u32, u32)>
    ensures whole { IsSome result ↔ (length fields.now ≡ 8) }
    ensures value { IfSome result (λ r. values (4 ∷ (4 ∷ [])) fields.now ≡ r.0 ∷ (r.1 ∷ [])) }
{
    let (m, n) = fields.split_first_chunk()?;
    Some((u32::from_le_bytes(*m), u32::from_le_bytes(*n.as_array()?)))
}

// A row of two numbers.
fn pair(first: u8, m: u32, n: u32) -> [u8; 9]
    ensures { result ≡ first ∷ (low_first 4 m ++ low_first 4 n) }
{
    let [a, b, c, d] = m.to_le_bytes();
    let [e, f, g, h] = n.to_le_bytes();
    [first, a, b, c, d, e, f, g, h]
}
