//! The parts of a program. A statement or an expression is named by its place in the program's lists.

use crate::list::List;

/// A stretch of a text, in bytes; `end` is excluded.
#[derive(Clone, Copy, Debug, PartialEq, Eq)]
pub struct Span {
    pub start: u32,
    pub end: u32,
}

/// What a reference allows, and what it promises of others.
#[derive(Clone, Copy, Debug, PartialEq, Eq)]
pub enum Perm {
    Isolated,
    Immutable,
    Readable,
    Writable,
}

/// What a reference refers to. Before names are resolved the number is that of the class's name, and then that of the class.
#[derive(Clone, Copy, Debug, PartialEq, Eq)]
pub enum Shape {
    Class(u32),
    Array,
}

#[derive(Clone, Copy, Debug, PartialEq, Eq)]
pub enum Ty {
    Long,
    Bool,
    Ref(Perm, Shape),
}

/// A name where it stands: its number among the program's names, of which number 0 is `this`.
#[derive(Clone, Copy, Debug)]
pub struct Ident {
    pub name: u32,
    pub span: Span,
}

/// A field, or a parameter.
#[derive(Clone, Copy, Debug)]
pub struct FieldDecl {
    pub ty: Ty,
    pub name: Ident,
}

#[derive(Clone, Copy, Debug, PartialEq, Eq)]
pub enum UnaryOp {
    Minus,
    Not,
}

#[derive(Clone, Copy, Debug, PartialEq, Eq)]
pub enum BinaryOp {
    Mul,
    Div,
    Rem,
    Plus,
    Minus,
    Less,
    AtMost,
    Greater,
    AtLeast,
    Equal,
    Differs,
    And,
    Or,
}

/// An expression, whose operands are places of expressions.
#[derive(Clone, Copy, Debug)]
pub enum Expr {
    Number(i64),
    Bool(bool),
    Null,
    Var(Ident),
    Unary(UnaryOp, u32),
    Binary(BinaryOp, u32, u32),
}

/// A value that is handed over: an expression's, or that of a variable which is consumed.
#[derive(Clone, Copy, Debug)]
pub enum Arg {
    Expr(u32),
    Consume(Ident),
}

/// A call, whose receiver `on` may be consumed.
#[derive(Debug, Drop)]
pub struct Call {
    pub consumed: bool,
    pub on: Ident,
    pub method: Ident,
    pub args: List<Arg>,
}

/// The places of a block's statements, in order.
#[derive(Debug, Drop)]
pub struct Block {
    pub stmts: List<u32>,
}

/// The right side of an assignment. That of a `recover` has its block, the given variable, and the span of `give w;`.
#[derive(Debug, Drop)]
pub enum Rhs {
    Value(Arg),
    Field(Ident, Ident),
    TakeField(Ident, Ident),
    Item(Ident, u32),
    New(Ident),
    NewArray(u32),
    Call(Call),
    Recover(Block, Ident, Span),
}

#[derive(Debug, Drop)]
pub enum StmtKind {
    Declare(Ty, Ident),
    Assign(Option<Ty>, Ident, Rhs),
    SetField(Ident, Ident, Arg),
    SetItem(Ident, u32, u32),
    Call(Call),
    Print(u32),
    If(u32, Block, Option<Block>),
    While(u32, Block),
    Par(Block, Block),
}

/// A statement. `head` is the stretch that a refusal or a trap of its first part names: the whole simple statement, or the head of one with blocks.
#[derive(Debug, Drop)]
pub struct Stmt {
    pub span: Span,
    pub head: Span,
    pub kind: StmtKind,
}

/// A method; `span` is that of its `return` with the `;`.
#[derive(Debug, Drop)]
pub struct Method {
    pub result: Ty,
    pub name: Ident,
    pub params: List<FieldDecl>,
    pub receiver: Perm,
    pub body: Block,
    pub back: Arg,
    pub span: Span,
}

#[derive(Debug, Drop)]
pub struct ClassDecl {
    pub name: Ident,
    pub fields: List<FieldDecl>,
    pub methods: List<Method>,
}
