// A line that is read from left to right: bytes, as ` 0b`, and fields, as ` 0112`.
ghost use Rattle.std.specs.Prelude.{◌≡◌, ◌≢◌, ◌↔◌, ℕ, ◌+◌, ◌<◌, ◌≤◌, IsTrue, drop, length, slice_index, IfSome, IfOk, IfErr, OnOk};
ghost use Rattle.text.specs.Fields.{digit, digit_below, run, field_end, digits_of};
ghost use Rattle.text.specs.Lines.{front_byte};

// A place that does not fit.
#[derive(Clone, Copy)]
pub(crate) struct Misfit {
    pub place: usize,
}

// A line, and the place up to which it is read.
#[derive(Drop)]
pub(crate) struct Cursor<'a> {
    text: &'a [u8],
    at: usize,
    ghost within: { at ≤ length text.now },
}

impl<'a> Cursor<'a> {
    pub(crate) fn new(text: &'a [u8], at: usize) -> Self
        requires { at ≤ length text.now }
        ensures text { result.text.now ≡ text.now }
        ensures at { result.at ≡ at }
    {
        Cursor { text, at }
    }

    // Whether the whole line is read.
    pub(crate) fn is_done(&self) -> bool
        ensures { IsTrue result ↔ (self.now.at ≡ length self.now.text.now) }
    {
        self.at == self.text.len()
    }

    // Refuses a line that goes on, at the place where it does.
    pub(crate) fn end(&self) -> Result<(), Misfit>
        ensures ok { OnOk result (self.now.at ≡ length self.now.text.now) }
        ensures err { IfErr result (λ m. (self.now.at ≢ length self.now.text.now) × (m.place ≡ self.now.at)) }
    {
        if self.is_done() {
            Ok(())
        } else {
            Err(Misfit { place: self.at })
        }
    }

    // The byte that a blank and two digits write.
    pub(crate) fn byte(&mut self) -> Result<u8, Misfit>
        ensures ok { IfOk result (λ b. front_byte (drop self.old.at self.old.text.now) ≡ Ok b) }
        ensures err { IfErr result (λ m. (n : ℕ) × (front_byte (drop self.old.at self.old.text.now) ≡ Err n)
            × (m.place ≡ self.old.at + n)) }
        ensures text { self.new.text.now ≡ self.old.text.now }
        ensures at { OnOk result (self.new.at ≡ self.old.at + 3) }
    {
        let at = self.at;
        let rest = &self.text[at..];
        let [b' ', ..] = rest else {
            return Err(Misfit { place: at });
        };
        let high = digit_at(rest, 1).ok_or(Misfit { place: at + 1 })?;
        let low = digit_at(rest, 2).ok_or(Misfit { place: at + 2 })?;
        self.at += 3;
        Ok(16 * high + low)
    }

    // The digits of a field, a blank and at least one digit below a radix.
    pub(crate) fn field(&mut self, radix: u8) -> Result<&'a [u8], Misfit>
        ensures ok { OnOk result (field_end self.old.text.now self.old.at radix ≡ Ok self.new.at) }
        ensures digits { IfOk result (λ d. d.now ≡ digits_of self.old.text.now self.old.at self.new.at) }
        ensures err { IfErr result (λ m. field_end self.old.text.now self.old.at radix ≡ Err m.place) }
        ensures text { self.new.text.now ≡ self.old.text.now }
    {
        let at = self.at;
        let [b' ', rest @ ..] = &self.text[at..] else {
            return Err(Misfit { place: at });
        };
        let digits = digit_run(rest, radix);
        if digits == 0 {
            return Err(Misfit { place: at + 1 });
        }
        self.at += 1 + digits;
        Ok(&rest[..digits])
    }
}

// The value of the hexadecimal digit at a place of a text, if one is there.
fn digit_at(text: &[u8], place: usize) -> Option<u8>
    ensures value { result ≡ digit (slice_index text.now place) }
    ensures bound { IfSome result (λ d. (d < 16) × (place < length text.now)) }
{
    text.get(place).and_then(|c| hex_digit(*c))
}

// How many characters at the front of a text are digits below a radix.
fn digit_run(text: &[u8], radix: u8) -> usize
    ensures count { result ≡ run radix text.now }
    ensures bound { result ≤ length text.now }
{
    text.iter().take_while(|c| is_digit(**c, radix)).count()
}

// Whether a character is a digit below a radix.
fn is_digit(c: u8, radix: u8) -> bool
    ensures { result ≡ digit_below radix c }
{
    hex_digit(c).is_some_and(|d| d < radix)
}

// The value of a hexadecimal digit.
pub(crate) fn hex_digit(c: u8) -> Option<u8>
    ensures value { result ≡ digit c }
    ensures bound { IfSome result (λ d. d < 16) }
{
    char::from(c).to_digit(16).map(|d| d as u8)
}
