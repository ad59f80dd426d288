//! The words of refusals and traps.

ghost use Rattle.std.specs.Prelude.{◌≡◌, ◌≤◌, ◌≢◌, length};
ghost use Rattle.perm_answer.specs.Answers.{lex_word_of, syntax_word_of, table_word_of, trap_word_of, type_word_of};

use perm_tree::errors::{LexError, ParseError, TableError, TrapKind, TypeKind};

pub fn lex_word(error: &LexError) -> &'static str
    ensures { result.now ≡ lex_word_of error.now }
{
    match error {
        LexError::BadByte { .. } => "BadByte",
        LexError::NumberTooLarge { .. } => "NumberTooLarge",
        LexError::UnclosedComment { .. } => "UnclosedComment",
        LexError::NoMemory => "",
    }
}

pub fn syntax_word(error: &ParseError) -> &'static str
    ensures { result.now ≡ syntax_word_of error.now }
{
    match error {
        ParseError::Unexpected { .. } => "Unexpected",
        ParseError::TooDeep { .. } => "TooDeep",
        ParseError::NoMemory => "",
    }
}

pub fn table_word(error: &TableError) -> &'static str
    ensures { result.now ≡ table_word_of error.now }
{
    match error {
        TableError::DuplicateName { .. } => "DuplicateName",
        TableError::UnknownClass { .. } => "UnknownClass",
        TableError::NoMain => "NoMain",
        TableError::BadMain { .. } => "BadMain",
        TableError::TooMany { .. } => "TooMany",
        TableError::NoMemory => "",
    }
}

pub fn type_word(kind: TypeKind) -> &'static str
    ensures { result.now ≡ type_word_of kind }
{
    match kind {
        TypeKind::UnknownName => "UnknownName",
        TypeKind::WrongKind => "WrongKind",
        TypeKind::Gone => "Gone",
        TypeKind::NeedsConsume => "NeedsConsume",
        TypeKind::NotAllowedThrough => "NotAllowedThrough",
        TypeKind::PermissionTooWeak => "PermissionTooWeak",
        TypeKind::Hidden => "Hidden",
        TypeKind::BadGive => "BadGive",
        TypeKind::ParShared => "ParShared",
        TypeKind::ParPermission => "ParPermission",
    }
}

pub fn trap_word(kind: TrapKind) -> &'static str
    ensures { result.now ≡ trap_word_of kind }
{
    match kind {
        TrapKind::DivideByZero => "DivideByZero",
        TrapKind::NullReference => "NullReference",
        TrapKind::IndexOutOfRange => "IndexOutOfRange",
        TrapKind::Overflow => "Overflow",
        TrapKind::StackOverflow => "StackOverflow",
    }
}
