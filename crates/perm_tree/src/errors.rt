//! The refusals of a text, the traps of a run, and want of memory.

ghost use Rattle.std.specs.Prelude.{◌≡◌};
ghost use Rattle.perm_tree.specs.declared.errors.LexError.TheVariants as lexical;
ghost use Rattle.perm_tree.specs.declared.errors.ParseError.TheVariants as syntactic;
ghost use Rattle.perm_tree.specs.declared.errors.TableError.TheVariants as table;
ghost use Rattle.perm_tree.specs.declared.errors.CheckFault.TheVariants as check;

use crate::ast::Span;
use std::alloc::{AllocError, AllocFailed};

/// Memory ran out.
#[derive(Clone, Copy, Debug, PartialEq, Eq)]
pub struct NoMemory;

impl From<AllocError> for NoMemory {
    fn from(_: AllocError) -> NoMemory {
        NoMemory
    }
}

impl<T: Drop> From<AllocFailed<T>> for NoMemory {
    fn from(_: AllocFailed<T>) -> NoMemory {
        NoMemory
    }
}

/// Why a text has no tokens: the first byte that begins none, and where.
#[derive(Clone, Copy, Debug, PartialEq, Eq)]
pub enum LexError {
    BadByte { at: u32 },
    NumberTooLarge { span: Span },
    UnclosedComment { at: u32 },
    NoMemory,
}

impl From<NoMemory> for LexError {
    ghost from_gives = { λ _ e. e ≡ lexical.NoMemory };

    fn from(_: NoMemory) -> LexError {
        LexError::NoMemory
    }
}

impl From<AllocError> for LexError {
    ghost from_gives = { λ _ e. e ≡ lexical.NoMemory };

    fn from(_: AllocError) -> LexError {
        LexError::NoMemory
    }
}

impl<T: Drop> From<AllocFailed<T>> for LexError {
    ghost from_gives = { λ _ e. e ≡ lexical.NoMemory };

    fn from(_: AllocFailed<T>) -> LexError {
        LexError::NoMemory
    }
}

/// Why tokens are no program: the place of the first token that no program continues with. A place equal to the number of tokens means their end.
#[derive(Clone, Copy, Debug, PartialEq, Eq)]
pub enum ParseError {
    Unexpected { token: u32 },
    TooDeep { token: u32 },
    NoMemory,
}

impl From<NoMemory> for ParseError {
    ghost from_gives = { λ _ e. e ≡ syntactic.NoMemory };

    fn from(_: NoMemory) -> ParseError {
        ParseError::NoMemory
    }
}

impl From<AllocError> for ParseError {
    ghost from_gives = { λ _ e. e ≡ syntactic.NoMemory };

    fn from(_: AllocError) -> ParseError {
        ParseError::NoMemory
    }
}

impl<T: Drop> From<AllocFailed<T>> for ParseError {
    ghost from_gives = { λ _ e. e ≡ syntactic.NoMemory };

    fn from(_: AllocFailed<T>) -> ParseError {
        ParseError::NoMemory
    }
}

/// What there is too much of.
#[derive(Clone, Copy, Debug, PartialEq, Eq)]
pub enum Limit {
    Classes,
    Fields,
    Methods,
    Variables,
}

/// Why the names of a program can't be resolved, with the span of the name.
#[derive(Clone, Copy, Debug, PartialEq, Eq)]
pub enum TableError {
    DuplicateName { span: Span },
    UnknownClass { span: Span },
    NoMain,
    BadMain { span: Span },
    TooMany { span: Span, limit: Limit },
    NoMemory,
}

impl From<NoMemory> for TableError {
    ghost from_gives = { λ _ e. e ≡ table.NoMemory };

    fn from(_: NoMemory) -> TableError {
        TableError::NoMemory
    }
}

impl From<AllocError> for TableError {
    ghost from_gives = { λ _ e. e ≡ table.NoMemory };

    fn from(_: AllocError) -> TableError {
        TableError::NoMemory
    }
}

impl<T: Drop> From<AllocFailed<T>> for TableError {
    ghost from_gives = { λ _ e. e ≡ table.NoMemory };

    fn from(_: AllocFailed<T>) -> TableError {
        TableError::NoMemory
    }
}

/// Why a part of a method isn't allowed, in the order of their numbers.
#[derive(Clone, Copy, Debug, PartialEq, Eq)]
pub enum TypeKind {
    UnknownName,
    WrongKind,
    Gone,
    NeedsConsume,
    NotAllowedThrough,
    PermissionTooWeak,
    Hidden,
    BadGive,
    ParShared,
    ParPermission,
}

/// The first part that isn't allowed, and the lowest kind that applies to it.
#[derive(Clone, Copy, Debug, PartialEq, Eq)]
pub struct TypeError {
    pub span: Span,
    pub kind: TypeKind,
}

/// Why a text is refused, with the span of the byte or token at which it is. The span is empty at the end of the text.
#[derive(Clone, Copy, Debug, PartialEq, Eq)]
pub enum Refusal {
    Lex(LexError, Span),
    Parse(ParseError, Span),
    Table(TableError, Span),
    Typing(TypeError),
}

/// Why the check of a text has no checked unit to give.
#[derive(Clone, Copy, Debug, PartialEq, Eq)]
pub enum CheckFault {
    Refused(Refusal),
    NoMemory,
}

impl From<NoMemory> for CheckFault {
    ghost from_gives = { λ _ e. e ≡ check.NoMemory };

    fn from(_: NoMemory) -> CheckFault {
        CheckFault::NoMemory
    }
}

impl From<AllocError> for CheckFault {
    ghost from_gives = { λ _ e. e ≡ check.NoMemory };

    fn from(_: AllocError) -> CheckFault {
        CheckFault::NoMemory
    }
}

impl<T: Drop> From<AllocFailed<T>> for CheckFault {
    ghost from_gives = { λ _ e. e ≡ check.NoMemory };

    fn from(_: AllocFailed<T>) -> CheckFault {
        CheckFault::NoMemory
    }
}

/// Why a running branch is cut off.
#[derive(Clone, Copy, Debug, PartialEq, Eq)]
pub enum TrapKind {
    DivideByZero,
    NullReference,
    IndexOutOfRange,
    Overflow,
    StackOverflow,
}
