//! How many bytes the texts of answers have.

ghost use Rattle.std.specs.Prelude.{◌≡◌, ◌≤◌, ◌+◌, ℕ, List, length, IfSome};
ghost use Rattle.perm_answer.specs.Answers.{placed_line, printed_text, text_of};

use crate::words::{lex_word, syntax_word, table_word, trap_word, type_word};
use crate::{Answer, USAGE};
use itoa::{Buffer, Integer};
use perm_tree::place::Place;

/// The most bytes of a line that speaks of a file, of the turns or of the heap.
const LINE_ROOM: usize = 19;

/// The most bytes of the word before a refusal or a trap, with its space.
const STAGE_ROOM: usize = 7;

/// A number of bytes in which the text of an answer has room. None where it doesn't fit a `usize`.
pub fn room_of(answer: &Answer) -> Option<usize>
    ensures { IfSome result (λ n. length (text_of answer.now) ≤ n) }
{
    match answer {
        Answer::Usage => Some(USAGE.len()),
        Answer::ReadFault(_) | Answer::TooLong(_) => Some(LINE_ROOM),
        Answer::Lex(error, place) => Some(placed_room(lex_word(error), *place)),
        Answer::Syntax(error, place) => Some(placed_room(syntax_word(error), *place)),
        Answer::Table(error, place) => Some(placed_room(table_word(error), *place)),
        Answer::Typing(error, place) => Some(placed_room(type_word(error.kind), *place)),
        Answer::Done(returned, run) => run_room(run.printed.as_slice(), width(*returned) + 6),
        Answer::Trap(kind, place, run) => run_room(
            run.printed.as_slice(),
            placed_room(trap_word(*kind), *place),
        ),
        Answer::OutOfTurns(run) => run_room(run.printed.as_slice(), LINE_ROOM),
        Answer::HeapFull => Some(LINE_ROOM),
    }
}

/// How many bytes a number has in decimal.
fn width<I: Integer>(number: I) -> usize
    ensures exact { result ≡ length (I.text number) }
    ensures small { result ≤ 40 }
{
    Buffer::new().format(number).len()
}

fn placed_room(word: &str, place: Place) -> usize
    requires { length word.now ≤ 20 }
    ensures { (stage : List ℕ) → length stage ≤ 7 → length (placed_line stage word.now place) ≤ result }
{
    STAGE_ROOM + word.len() + width(place.line) + width(place.column) + 3
}

/// Room for the printed numbers, and for so many bytes more.
fn run_room(printed: &[i64], end: usize) -> Option<usize>
    ensures { IfSome result (λ n. length (printed_text printed.now) + end ≤ n) }
{
    let mut room = end;
    for number in printed {
        room = room.checked_add(width(*number) + 1)?;
    }
    Some(room)
}
