// What the rows of calls and of answers share: where one does not fit, and how one is put into a buffer.
ghost use Rattle.std.specs.Prelude.{◌≡◌, ℕ, List};
ghost use Rattle.wire.specs.Meaning.{lengths_of, NoRow, put_in, put_said};
ghost use Rattle.wire.specs.Rows.{ceases, reading};

// A row that cannot be read, and the first of its bytes that does not fit.
#[derive(Clone, Copy, Debug, PartialEq, Eq)]
pub struct Garbled {
    pub place: u32,
}

// A buffer that is too short for a row of so many bytes.
#[derive(Clone, Copy, Debug, PartialEq, Eq)]
pub struct TooShort {
    pub needed: usize,
}

// The first byte that does not fit, of a row that is none, by how long each row is.
pub(crate) fn misfit(row: &[u8], lengths: &[u8]) -> Garbled
    ensures { (forms : List (List ℕ)) → lengths.now ≡ lengths_of forms → NoRow forms row.now →
        reading forms row.now ≡ ceases result.place }
{
    let length = row.first().and_then(|number| lengths.get(*number as usize));
    Garbled {
        place: length.map_or(0, |length| row.len().min(*length as usize)) as u32,
    }
}

// Puts a row at the front of a buffer and says how long it is; a buffer that is too short is left as it was.
// The buffer is the caller's, so the clauses and no type say what becomes of it, here and of both `write`s.
pub(crate) fn put(row: &[u8], out: &mut [u8]) -> Result<usize, TooShort>
    ensures value { result ≡ put_said row.now out.old }
    ensures after { out.new ≡ put_in row.now out.old }
{
    let needed = row.len();
    if out.len() < needed {
        return Err(TooShort { needed });
    }
    out[0..needed].copy_from_slice(row);
    Ok(needed)
}
