// What a line of text asks.
ghost use Rattle.std.specs.Prelude.{◌≡◌, ◌≤◌, drop, length, Some, IfOk, IfErr};
ghost use Rattle.text.specs.Lines.{white, blank, comment, along, bytes_from, line_of};
ghost use Rattle.text.specs.Meaning.{means, asks, Refuses, error_in_words};
ghost use Rattle.text.specs.declared.line.LineError.TheVariants.{Unreadable, OutOfMemory};

use crate::cursor::{Cursor, Misfit};
use crate::feedback::read_feedback;
use crate::words::Refused;
use std::alloc::{AllocError, AllocFailed, Global};
use std::error::Error;
use std::fmt;
use wire::Refusal;

// A row of bytes; or how many pegs and colours a game has, with a code and a guess.
#[derive(Drop)]
pub enum Line {
    Row(Vec<u8>),
    Feedback {
        pegs: u8,
        colours: u8,
        code: Vec<u8>,
        guess: Vec<u8>,
    },
}

// Why a line is not read: it ceases to be one at a place, or memory ran out.
#[derive(Clone, Copy, Debug, PartialEq, Eq)]
pub enum LineError {
    Unreadable { place: usize },
    OutOfMemory,
}

// An error as it is printed: the refusal of the line, or the library's words for want of memory.
impl fmt::Display for LineError {
    ghost output = { λ e. Some (error_in_words e) };

    fn fmt<W: fmt::Write>(&self, f: &mut fmt::Formatter<W>) -> fmt::Result {
        match *self {
            LineError::Unreadable { place } => {
                let number = Refusal::Unreadable.into();
                Refused { number, place }.fmt(f)
            }
            LineError::OutOfMemory => write!(f, "memory allocation failed"),
        }
    }
}

impl Error for LineError {}

// What a cursor refuses is where the line ceases to be one.
impl From<Misfit> for LineError {
    ghost from_gives = { λ m e. e ≡ Unreadable m.place };

    fn from(misfit: Misfit) -> LineError {
        LineError::Unreadable {
            place: misfit.place,
        }
    }
}

// Memory runs out as one error where a row is made, and as another where a byte is put behind one: `?` needs both.
impl From<AllocError> for LineError {
    ghost from_gives = { λ _ e. e ≡ OutOfMemory };

    fn from(_e: AllocError) -> LineError {
        LineError::OutOfMemory
    }
}

impl<T: Drop> From<AllocFailed<T>> for LineError {
    ghost from_gives = { λ _ e. e ≡ OutOfMemory };

    fn from(_e: AllocFailed<T>) -> LineError {
        LineError::OutOfMemory
    }
}

// The words that a line of bytes and one of feedback begin with.
const BYTES: [u8; 5] = *b"bytes";

const FEEDBACK: [u8; 8] = *b"feedback";

impl Line {
    // What a line asks, its line feed taken off; none if it is passed over, being blank or a comment.
    pub fn read(heap: Global, text: &[u8]) -> Result<Option<Line>, LineError>
        ensures ok { IfOk result (λ l. asks l ≡ line_of text.now) }
        ensures err { IfErr result (λ e. Refuses e (line_of text.now)) }
    {
        if is_blank(text) || is_comment(text) {
            return Ok(None);
        }
        let bytes = common_prefix(&BYTES, text);
        let feedback = common_prefix(&FEEDBACK, text);
        if bytes == BYTES.len() {
            Ok(Some(read_bytes(heap, Cursor::new(text, bytes))?))
        } else if feedback == FEEDBACK.len() {
            Ok(Some(read_feedback(heap, Cursor::new(text, feedback))?))
        } else {
            Err(LineError::Unreadable {
                place: bytes.max(feedback),
            })
        }
    }
}

// A blank, a tab or a carriage return.
fn is_white(c: u8) -> bool
    ensures { result ≡ white c }
{
    matches!(c, b' ' | b'\t' | b'\r')
}

// A line of nothing else.
fn is_blank(text: &[u8]) -> bool
    ensures { result ≡ blank text.now }
{
    text.iter().all(|c| is_white(*c))
}

// A line that begins with #.
fn is_comment(text: &[u8]) -> bool
    ensures { result ≡ comment text.now }
{
    matches!(text, [b'#', ..])
}

// How far a text goes along with a word.
fn common_prefix(word: &[u8], text: &[u8]) -> usize
    ensures along { result ≡ along word.now text.now }
    ensures bound { result ≤ length text.now }
{
    word.iter().zip(text).take_while(|(w, c)| w == c).count()
}

// The bytes of a line from the cursor on, each a blank and two digits.
fn read_bytes(heap: Global, mut line: Cursor) -> Result<Line, LineError>
    ensures ok { IfOk result (λ l. means l ≡ bytes_from line.entry.at (drop line.entry.at line.entry.text.now)) }
    ensures err { IfErr result (λ e. Refuses e (bytes_from line.entry.at (drop line.entry.at line.entry.text.now))) }
{
    let mut row = Vec::new(heap);
    while !line.is_done() {
        row.push(line.byte()?)?;
    }
    Ok(Line::Row(row))
}
