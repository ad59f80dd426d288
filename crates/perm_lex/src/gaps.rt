//! Blanks and comments.

ghost use Rattle.std.specs.Prelude.{◌≡◌, ℕ, [], length, codes, take_while, MatchOption};
ghost use Rattle.perm_lex.specs.Lexes.{is_blank, Begins};
ghost use Rattle.perm_lex.specs.Reading.{ReadsPiece, IsUnclosed, is_in_line};

/// What begins a comment that goes up to the end of its line.
pub const LINE_COMMENT: &[u8] = b"//";

/// What begins a comment that goes up to `COMMENT_END`.
pub const COMMENT_START: &[u8] = b"/*";

const COMMENT_END: &[u8] = b"*/";

pub fn is_blank(byte: u8) -> bool
    ensures { result ≡ is_blank byte }
{
    matches!(byte, b' ' | b'\t' | b'\r' | b'\n')
}

/// How many bytes stand before the next line feed or the end.
fn line_len(rest: &[u8]) -> usize
    ensures { result ≡ length (take_while is_in_line rest.now) }
{
    rest.iter().take_while(|byte| **byte != b'\n').count()
}

/// The length of the line comment at the front.
pub fn line_comment(rest: &[u8]) -> usize
    requires { Begins (codes "//") rest.now }
    ensures { (at : ℕ) → ReadsPiece at rest.now result [] }
{
    line_len(rest)
}

/// The length of the comment at the front, if it has an end.
pub fn block_comment(rest: &[u8]) -> Option<usize>
    requires { Begins (codes "/*") rest.now }
    ensures { MatchOption result (IsUnclosed rest.now) (λ len. (at : ℕ) → ReadsPiece at rest.now len []) }
{
    for place in COMMENT_START.len()..rest.len() {
        if rest[place..].starts_with(COMMENT_END) {
            return Some(place + COMMENT_END.len());
        }
    }
    None
}
