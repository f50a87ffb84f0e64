// A call, and its bytes.
ghost use Rattle.std.specs.Prelude.{◌≡◌, MatchOption};
ghost use Rattle.wire.specs.Format.{call_forms, call_of, bytes_of};
ghost use Rattle.wire.specs.Meaning.{asks, asked, NoRow, put_in, put_said};

use crate::row::{Garbled, TooShort, misfit, put};

// What a desk is asked, by the numbers 0 to 4: a guess and what was told of it, right and near; the last guess taken back; how
// many codes are left, and the first; whether a code could be the one; how few guesses are enough.
#[derive(Clone, Copy, Debug, PartialEq, Eq)]
pub enum Call {
    Told { guess: u16, right: u8, near: u8 },
    Back,
    Left,
    CouldBe(u16),
    Advise,
}

// How many bytes each call has, by its number. The numbers are the format's: an enum of kinds would say each once more.
const LENGTHS: [u8; 5] = [5, 1, 1, 3, 1];

// The call that a row of bytes is, or the first byte that does not fit. Answers are read by the same line: a trait is longer.
impl TryFrom<&[u8]> for Call {
    type Error = Garbled;

    ghost try_from_gives = { λ row result. asked result ≡ call_of row.now };

    fn try_from(row: &[u8]) -> Result<Call, Garbled> {
        parse(row).ok_or_else(|| misfit(row, &LENGTHS))
    }
}

impl Call {
    // As `try_from`, and takes an array too.
    pub fn read(row: &[u8]) -> Result<Call, Garbled>
        ensures { asked result ≡ call_of row.now }
    {
        Call::try_from(row)
    }

    // Writes the call's bytes to the front of a buffer and says how many; one that is too short is left as it was.
    pub fn write(self, out: &mut [u8]) -> Result<usize, TooShort>
        ensures value { result ≡ put_said (bytes_of (asks self)) out.old }
        ensures after { out.new ≡ put_in (bytes_of (asks self)) out.old }
    {
        match self {
            Call::Told { guess, right, near } => {
                let [low, high] = guess.to_le_bytes();
                put(&[0, low, high, right, near], out)
            }
            Call::Back => put(&[1], out),
            Call::Left => put(&[2], out),
            Call::CouldBe(code) => {
                let [low, high] = code.to_le_bytes();
                put(&[3, low, high], out)
            }
            Call::Advise => put(&[4], out),
        }
    }
}

// The call that a row of bytes is, if it is one.
fn parse(row: &[u8]) -> Option<Call>
    ensures { MatchOption result (NoRow call_forms row.now) (λ c. asks c ≡ call_of row.now) }
{
    match row {
        [0, guess @ .., right, near] => Some(Call::Told {
            guess: u16::from_le_bytes(*guess.as_array()?),
            right: *right,
            near: *near,
        }),
        [1] => Some(Call::Back),
        [2] => Some(Call::Left),
        [3, code @ ..] => Some(Call::CouldBe(u16::from_le_bytes(*code.as_array()?))),
        [4] => Some(Call::Advise),
        _ => None,
    }
}
