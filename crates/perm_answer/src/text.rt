//! Appending to a text that has room.

ghost use Rattle.std.specs.Prelude.{◌≡◌, ◌≤◌, ◌+◌, ◌++◌, length, vec_capacity};
ghost use Rattle.perm_answer.specs.Answers.{number_line, placed_line, printed_text};
ghost use Rattle.perm_answer.specs.Appending.{Appends, HasRoom};

use itoa::{Buffer, Integer};
use perm_tree::place::Place;

pub fn append(text: &mut Vec<u8>, bytes: &[u8])
    requires room { HasRoom text.old bytes.now }
    ensures { Appends text.old bytes.now text.new }
{
    text.extend_from_slice(bytes).unwrap();
}

/// Appends a number in decimal.
pub fn append_number<I: Integer>(text: &mut Vec<u8>, number: I)
    requires room { HasRoom text.old (I.text number) }
    ensures { Appends text.old (I.text number) text.new }
{
    append(text, Buffer::new().format(number).as_bytes());
}

/// Appends a line with a number behind some bytes.
pub fn append_line(text: &mut Vec<u8>, front: &str, number: &i64)
    requires room { HasRoom text.old (number_line front.now number.now) }
    ensures { Appends text.old (number_line front.now number.now) text.new }
{
    append(text, front.as_bytes());
    append_number(text, *number);
    append(text, b"\n");
}

/// Appends the lines of the printed numbers.
pub fn append_printed(text: &mut Vec<u8>, printed: &[i64])
    requires room { HasRoom text.old (printed_text printed.now) }
    ensures { Appends text.old (printed_text printed.now) text.new }
{
    for number in printed {
        append_line(text, "", number);
    }
}

/// Appends the line of a refusal or a trap at a place.
pub fn append_placed(text: &mut Vec<u8>, stage: &str, word: &str, place: Place)
    requires room { HasRoom text.old (placed_line stage.now word.now place) }
    ensures { Appends text.old (placed_line stage.now word.now place) text.new }
{
    append(text, stage.as_bytes());
    append(text, word.as_bytes());
    append(text, b" ");
    append_number(text, place.line);
    append(text, b":");
    append_number(text, place.column);
    append(text, b"\n");
}
