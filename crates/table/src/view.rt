// Reading a table that lies in lent bytes.
ghost use Rattle.std.specs.Prelude.{◌≡◌, ◌<◌, ◌≤◌, length, MatchOption};
ghost use Rattle.std.specs.Option.{option_map};
ghost use Rattle.table.specs.Table.{size, row_at, entry_at};

use crate::shape::Shape;

// A table, by its shape and the bytes that begin with it.
#[derive(Clone, Copy)]
pub struct Table<'a> {
    pub shape: Shape,
    pub bytes: &'a [u8],
    pub ghost whole: { size shape ≤ length bytes.now },
}

impl<'a> Table<'a> {
    // The table of a shape that bytes begin with; none where they are too few.
    pub fn new(shape: Shape, bytes: &'a [u8]) -> Option<Table<'a>>
        ensures { MatchOption result (length bytes.now < size shape) (λ t. (t.shape ≡ shape) × (t.bytes.now ≡ bytes.now)) }
    {
        if bytes.len() < shape.size() {
            return None;
        }
        Some(Table { shape, bytes })
    }

    // The row of a guess; none where there is no such guess.
    pub fn row(&self, guess: u16) -> Option<&'a [u8]>
        ensures { option_map (λ x. x.now) result ≡ row_at self.now.shape self.now.bytes.now guess }
    {
        if guess >= self.shape.guesses {
            return None;
        }
        Some(&self.bytes[self.shape.row_range(guess)])
    }

    // What a code is told of a guess, by number; none where there is no such code or guess.
    pub fn entry(&self, guess: u16, code: u16) -> Option<u8>
        ensures { result ≡ entry_at self.now.shape self.now.bytes.now guess code }
    {
        self.row(guess)?.get(code as usize).copied()
    }
}

impl Shape {
    // The row of a guess in bytes that begin with a table of this shape; none where they are too few, or there is no such guess.
    pub fn row(self, table: &[u8], guess: u16) -> Option<&[u8]>
        ensures { option_map (λ x. x.now) result ≡ row_at self table.now guess }
    {
        Table::new(self, table)?.row(guess)
    }

    // What a code is told of a guess there, by number; none where the bytes are too few, or there is no such code or guess.
    pub fn entry(self, table: &[u8], guess: u16, code: u16) -> Option<u8>
        ensures { result ≡ entry_at self table.now guess code }
    {
        Table::new(self, table)?.entry(guess, code)
    }
}
