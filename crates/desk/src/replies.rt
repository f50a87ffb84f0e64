// What is printed for a line.
ghost use Rattle.std.specs.Prelude.{◌≡◌, Some, IfOk, string_bytes};
ghost use Rattle.codes.specs.Pegs.{game_of};
ghost use Rattle.desk.specs.Replies.{shortened, told_in_words, told_of_rows, reply, reply_to};
ghost use Rattle.std.specs.Option.{option_map};
ghost use Rattle.text.specs.Meaning.{means};
ghost use Rattle.text.specs.Words.{in_words, refused_at};
ghost use Rattle.wire.specs.Format.{call_of};
ghost use Rattle.wire.specs.Meaning.{refusal_number};

use codes::Game;
use std::alloc::{AllocError, Global};
use text::{InWords, Line, LineError, Refused, Told};
use wire::{Call, Refusal};

// The reply to a line; none for one that is passed over.
pub fn reply_to(heap: Global, line: &[u8]) -> Result<Option<String>, AllocError>
    ensures { IfOk result (λ s. option_map string_bytes s ≡ reply_to line.now) }
{
    let line = without(without(line, b'\n'), b'\r');
    match Line::read(heap, line) {
        Ok(line) => line.map(|line| reply_to_line(heap, line)).transpose(),
        Err(LineError::Unreadable { place }) => {
            Ok(Some(refusal(heap, Refusal::Unreadable, place)?))
        }
        // An unreadable line is answered, so only want of memory is handed on.
        Err(LineError::OutOfMemory) => Err(AllocError),
    }
}

// The reply to a line that was read.
fn reply_to_line(heap: Global, line: Line) -> Result<String, AllocError>
    ensures { IfOk result (λ s. Some (string_bytes s) ≡ reply (means line)) }
{
    match line {
        Line::Row(row) => reply_to_row(heap, row.as_slice()),
        Line::Feedback {
            pegs,
            colours,
            code,
            guess,
        } => match told(pegs, colours, code.as_slice(), guess.as_slice()) {
            Ok(told) => told.to_string(heap),
            Err(refused) => refusal(heap, refused, 0),
        },
    }
}

// The call that a row of bytes is, or how it is refused.
fn reply_to_row(heap: Global, row: &[u8]) -> Result<String, AllocError>
    ensures { IfOk result (λ s. string_bytes s ≡ in_words (call_of row.now)) }
{
    match Call::try_from(row) {
        Ok(call) => InWords(call).to_string(heap),
        Err(garbled) => refusal(heap, Refusal::Unreadable, garbled.place as usize),
    }
}

// What a guess is told of a code, both given as rows of pegs. One `let .. else` for each refusal, in the order of
// the rules.
fn told(pegs: u8, colours: u8, code: &[u8], guess: &[u8]) -> Result<Told, Refusal>
    ensures { told_in_words result ≡ told_of_rows (game_of pegs colours) code.now guess.now }
{
    let Some(game) = Game::new(pegs, colours) else {
        return Err(Refusal::NoSuchGame);
    };
    let (Some(code), Some(guess)) = (game.code_of(code), game.code_of(guess)) else {
        return Err(Refusal::NoSuchCode);
    };
    Ok(Told(game.feedback(code, guess)))
}

// A refusal in words.
fn refusal(heap: Global, refusal: Refusal, place: usize) -> Result<String, AllocError>
    ensures { IfOk result (λ s. string_bytes s ≡ refused_at (refusal_number refusal) place) }
{
    let number = refusal.into();
    Refused { number, place }.to_string(heap)
}

// A text without its last character, where that is the given one.
fn without(text: &[u8], last: u8) -> &[u8]
    ensures { result.now ≡ shortened last text.now }
{
    text.strip_suffix(&[last]).unwrap_or(text)
}
