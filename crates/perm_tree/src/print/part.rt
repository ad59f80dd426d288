//! The parts of a canonical text.

ghost use Rattle.std.specs.Prelude.{◌≡◌};
ghost use Rattle.perm_tree.specs.Printer.Expressions.{level, operator_text, perm_text, sign_text};
ghost use Rattle.perm_tree.specs.Printer.Parts.{word_text};

use crate::ast::{Arg, BinaryOp, Ident, Perm, Ty, UnaryOp};

/// The fixed words between names, numbers and operators.
#[derive(Clone, Copy)]
pub enum Word {
    Space,
    Dot,
    Comma,
    Open,
    Close,
    Gets,
    End,
    Consume,
    OpenConsume,
    OpenItem,
    ItemGets,
    ItemEnd,
    New,
    NewEnd,
    NewArray,
    Recover,
    Give,
    RecoverEnd,
    Print,
    If,
    While,
    Body,
    Else,
    Par,
    Beside,
    BlockEnd,
    ParamsEnd,
    MethodBody,
    Return,
    True,
    False,
    Null,
}

impl Word {
    pub fn bytes(self) -> &'static [u8]
        ensures { result.now ≡ word_text self }
    {
        match self {
            Word::Space => b" ",
            Word::Dot => b".",
            Word::Comma => b", ",
            Word::Open => b"(",
            Word::Close => b")",
            Word::Gets => b" = ",
            Word::End => b";\n",
            Word::Consume => b"consume ",
            Word::OpenConsume => b"(consume ",
            Word::OpenItem => b"[",
            Word::ItemGets => b"] = ",
            Word::ItemEnd => b"];\n",
            Word::New => b"new ",
            Word::NewEnd => b"();\n",
            Word::NewArray => b"new long[",
            Word::Recover => b"recover {\n",
            Word::Give => b"give ",
            Word::RecoverEnd => b"};\n",
            Word::Print => b"print ",
            Word::If => b"if (",
            Word::While => b"while (",
            Word::Body => b") {\n",
            Word::Else => b"} else {\n",
            Word::Par => b"par {\n",
            Word::Beside => b"} {\n",
            Word::BlockEnd => b"}\n",
            Word::ParamsEnd => b") ",
            Word::MethodBody => b" {\n",
            Word::Return => b"return ",
            Word::True => b"true",
            Word::False => b"false",
            Word::Null => b"null",
        }
    }
}

/// What a text is made of. Expressions and statements are named by their places, and a statement stands within so many braces.
#[derive(Clone, Copy)]
pub enum Part {
    Word(Word),
    Indent(usize),
    Name(Ident),
    Perm(Perm),
    Declared(Ty, Ident),
    Target(Option<Ty>, Ident),
    Receiver(bool, Ident),
    Number(i64),
    Sign(UnaryOp),
    Operator(BinaryOp),
    Arg(Arg),
    Expr(u32),
    Stmt(u32, usize),
}

pub fn perm_bytes(perm: Perm) -> &'static [u8]
    ensures { result.now ≡ perm_text perm }
{
    match perm {
        Perm::Isolated => b"isolated",
        Perm::Immutable => b"immutable",
        Perm::Readable => b"readable",
        Perm::Writable => b"writable",
    }
}

pub fn sign_bytes(op: UnaryOp) -> &'static [u8]
    ensures { result.now ≡ sign_text op }
{
    match op {
        UnaryOp::Minus => b"-",
        UnaryOp::Not => b"!",
    }
}

pub fn operator_bytes(op: BinaryOp) -> &'static [u8]
    ensures { result.now ≡ operator_text op }
{
    match op {
        BinaryOp::Mul => b" * ",
        BinaryOp::Div => b" / ",
        BinaryOp::Rem => b" % ",
        BinaryOp::Plus => b" + ",
        BinaryOp::Minus => b" - ",
        BinaryOp::Less => b" < ",
        BinaryOp::AtMost => b" <= ",
        BinaryOp::Greater => b" > ",
        BinaryOp::AtLeast => b" >= ",
        BinaryOp::Equal => b" == ",
        BinaryOp::Differs => b" != ",
        BinaryOp::And => b" && ",
        BinaryOp::Or => b" || ",
    }
}

/// How loosely an operator binds: 1 binds tightest.
pub fn level(op: BinaryOp) -> u8
    ensures { result ≡ level op }
{
    match op {
        BinaryOp::Mul | BinaryOp::Div | BinaryOp::Rem => 1,
        BinaryOp::Plus | BinaryOp::Minus => 2,
        BinaryOp::Less | BinaryOp::AtMost | BinaryOp::Greater | BinaryOp::AtLeast => 3,
        BinaryOp::Equal | BinaryOp::Differs => 4,
        BinaryOp::And => 5,
        BinaryOp::Or => 6,
    }
}
