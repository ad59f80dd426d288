//! Lines and columns of places in a text.

ghost use Rattle.std.specs.Prelude.{◌≡◌, ◌≤◌, ◌+◌, ◌==◌, not, length, reverse, take, count_by, take_while};
ghost use Rattle.perm_tree.specs.TextPlaces.{IsPlaceOf};

/// A place in a text, both counted from 1. The column is in bytes.
#[derive(Clone, Copy, Debug, PartialEq, Eq)]
pub struct Place {
    pub line: u32,
    pub column: u32,
}

/// The line and column of the byte at `at`, or of the end of the text.
pub fn place_of(text: &[u8], at: u32) -> Place
    requires within { at ≤ length text.now }
    requires short { length text.now ≤ 1048576 }
    ensures { IsPlaceOf text.now at result }
{
    let mut place = Place { line: 1, column: 1 };
    for byte in &text[..at as usize] {
        if *byte == b'\n' {
            place.line += 1;
            place.column = 1;
        } else {
            place.column += 1;
        }
    }
    place
}
