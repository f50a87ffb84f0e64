// Calls, feedback and refusals in words.
ghost use Rattle.std.specs.Prelude.{Some};
ghost use Rattle.codes.specs.Meaning.{as_told};
ghost use Rattle.text.specs.Words.{in_words, right_and_near, refused_at};
ghost use Rattle.wire.specs.Meaning.{asks};

use codes::Feedback;
use std::fmt;
use wire::Call;

// A call as it is printed, its code as a number.
#[derive(Clone, Copy)]
pub struct InWords(pub Call);

impl fmt::Display for InWords {
    ghost output = { λ c. Some (in_words (asks c.0)) };

    fn fmt<W: fmt::Write>(&self, f: &mut fmt::Formatter<W>) -> fmt::Result {
        match self.0 {
            Call::Told { guess, right, near } => write!(f, "told {guess} {right} {near}"),
            Call::Back => write!(f, "back"),
            Call::Left => write!(f, "left"),
            Call::CouldBe(code) => write!(f, "could {code}"),
            Call::Advise => write!(f, "advise"),
        }
    }
}

// What a guess is told, as it is printed.
#[derive(Clone, Copy)]
pub struct Told(pub Feedback);

impl fmt::Display for Told {
    ghost output = { λ t. Some (right_and_near (as_told t.0)) };

    fn fmt<W: fmt::Write>(&self, f: &mut fmt::Formatter<W>) -> fmt::Result {
        let Feedback { right, near } = self.0;
        write!(f, "{right} right {near} near")
    }
}

// A refusal as it is printed, whatever its number: one that was read may have any.
#[derive(Clone, Copy)]
pub struct Refused {
    pub number: u32,
    pub place: usize,
}

impl fmt::Display for Refused {
    ghost output = { λ r. Some (refused_at r.number r.place) };

    fn fmt<W: fmt::Write>(&self, f: &mut fmt::Formatter<W>) -> fmt::Result {
        let Refused { number, place } = *self;
        write!(f, "refused {number} at {place}")
    }
}
