//! The next token, and what is added to the program.

ghost use Rattle.std.specs.Prelude.{◌≡◌, ℕ, ◌+◌, ◌<◌, ◌≤◌, [], ◌∷◌, ◌++◌, length, slice_get, IfOk, OnErr, OnOk, position, bytes_eq};
ghost use Rattle.std.specs.Bool.{OnTrue, OnFalse};
ghost use Rattle.perm_tree.specs.Places.{ExprBelow, KindPlaced};
ghost use Rattle.perm_parse.specs.ParserResults.{TakesToken, TakesVar, IsAhead, IsNext, IsNotNext, IsNotSecond, IsSecond, MentionsClass, NamesToken, NumbersName, Onward, OpensLevel, PushesExpr, PushesStmt, NamesVar};
ghost use Rattle.perm_parse.specs.Parses.{deepest};

use crate::parser::Parser;
use perm_tree::ast::{Expr, Ident, Stmt};
use perm_tree::errors::ParseError;
use perm_tree::list::{List, Name};
use perm_tree::tokens::{Token, TokenKind};

/// How many brackets and unary operators may be open.
const DEEPEST: usize = 100;

/// Adds an element at the end.
pub fn append<T: Drop>(list: &mut List<T>, item: T) -> Result<(), ParseError>
    ensures ok { OnOk result (list.new ≡ list.old ++ item ∷ []) }
    ensures err { OnErr result ((result ≡ Err ParseError.NoMemory) × (list.new ≡ list.old)) }
{
    Ok(list.push(item)?)
}

impl<'a> Parser<'a> {
    /// The next token.
    pub fn peek(&self) -> Option<Token>
        ensures { result ≡ slice_get self.now.tokens.now self.now.at }
    {
        self.tokens.get(self.at).copied()
    }

    /// The refusal of the next token.
    pub fn unexpected(&self) -> ParseError
        ensures { result ≡ ParseError.Unexpected self.now.at }
    {
        ParseError::Unexpected {
            token: self.at as u32,
        }
    }

    /// The refusal of the next token for its level.
    pub fn too_deep(&self) -> ParseError
        ensures { result ≡ ParseError.TooDeep self.now.at }
    {
        ParseError::TooDeep {
            token: self.at as u32,
        }
    }

    /// Goes on to the next token.
    pub fn advance(&mut self)
        requires { self.old.at < length self.old.tokens.now }
        ensures { IsAhead self.old self.new }
    {
        self.at += 1;
    }

    /// Takes a token of this kind, which has to come next.
    pub fn expect(&mut self, wanted: TokenKind) -> Result<Token, ParseError>
        ensures expected { TakesToken wanted self.old self.new result }
        ensures onward { Onward self.old self.new }
    {
        let Some(token) = self.peek() else {
            return Err(self.unexpected());
        };
        if token.kind == wanted {
            self.advance();
            Ok(token)
        } else {
            Err(self.unexpected())
        }
    }

    /// Whether a token of this kind comes next.
    pub fn next_is(&self, wanted: TokenKind) -> bool
        ensures yes { OnTrue result (IsNext wanted self.now) }
        ensures no { OnFalse result (IsNotNext wanted self.now) }
    {
        match self.peek() {
            Some(token) => token.kind == wanted,
            None => false,
        }
    }

    /// The token behind the next one.
    pub fn second(&self) -> Option<Token>
        ensures { result ≡ slice_get self.now.tokens.now (self.now.at + 1) }
    {
        self.tokens.get(self.at + 1).copied()
    }

    /// Whether a token of this kind comes second.
    pub fn second_is(&self, wanted: TokenKind) -> bool
        ensures yes { OnTrue result (IsSecond wanted self.now) }
        ensures no { OnFalse result (IsNotSecond wanted self.now) }
    {
        match self.second() {
            Some(token) => token.kind == wanted,
            None => false,
        }
    }

    /// Takes a name or `this`, which has to come next.
    pub fn variable(&mut self) -> Result<Token, ParseError>
        ensures expected { TakesVar self.old self.new result }
        ensures onward { Onward self.old self.new }
    {
        let Some(token) = self.peek() else {
            return Err(self.unexpected());
        };
        match token.kind {
            TokenKind::Name => {
                self.advance();
                Ok(token)
            }
            TokenKind::This => {
                self.advance();
                Ok(token)
            }
            _ => Err(self.unexpected()),
        }
    }

    /// Takes an opening bracket, or a unary operator, which has to come next.
    pub fn open(&mut self, wanted: TokenKind, depth: usize) -> Result<Token, ParseError>
        requires { depth ≤ deepest }
        ensures opened { OpensLevel wanted depth self.old self.new result }
        ensures onward { Onward self.old self.new }
    {
        let Some(token) = self.peek() else {
            return Err(self.unexpected());
        };
        if token.kind == wanted {
            if depth == DEEPEST {
                return Err(self.too_deep());
            }
            self.advance();
            Ok(token)
        } else {
            Err(self.unexpected())
        }
    }

    /// Adds an expression, and answers its place.
    pub fn add_expr(&mut self, e: Expr) -> Result<u32, ParseError>
        requires { ExprBelow (length self.old.program.exprs) e }
        ensures pushed { PushesExpr e self.old self.new result }
        ensures onward { Onward self.old self.new }
        ensures below { IfOk result (λ n. n < length self.new.program.exprs) }
    {
        Ok(self.program.push_expr(e)?)
    }

    /// The place of a name among those so far.
    pub fn known(&self, name: &[u8]) -> Option<usize>
        ensures { result ≡ position (λ other. bytes_eq other name.now) self.now.program.names }
    {
        self.names.get_index_of(name)
    }

    /// The number of the name of a token.
    pub fn number(&mut self, token: Token) -> Result<u32, ParseError>
        requires start { token.span.start ≤ token.span.end }
        requires end { token.span.end ≤ length self.old.text.now }
        ensures numbered { NumbersName token self.old self.new result }
        ensures onward { Onward self.old self.new }
    {
        let bytes = &self.text[token.span.start as usize..token.span.end as usize];
        if let Some(at) = self.known(bytes) {
            return u32::try_from(at).map_err(|_| ParseError::NoMemory);
        }
        let name = bytes.to_vec(self.alloc)?;
        self.names.reserve(1)?;
        let number = self.program.push_name(Name::from_vec(name))?;
        self.names.insert(bytes).unwrap();
        Ok(number)
    }

    /// A name, with its number.
    pub fn ident(&mut self, token: Token) -> Result<Ident, ParseError>
        requires start { token.span.start ≤ token.span.end }
        requires end { token.span.end ≤ length self.old.text.now }
        ensures named { NamesToken token self.old self.new result }
        ensures onward { Onward self.old self.new }
    {
        let name = self.number(token)?;
        Ok(Ident {
            name,
            span: token.span,
        })
    }

    /// The number of a variable: 0 for `this`.
    pub fn var(&mut self, token: Token) -> Result<Ident, ParseError>
        requires start { token.span.start ≤ token.span.end }
        requires end { token.span.end ≤ length self.old.text.now }
        ensures named { NamesVar token self.old self.new result }
        ensures onward { Onward self.old self.new }
    {
        match token.kind {
            TokenKind::This => Ok(Ident {
                name: 0,
                span: token.span,
            }),
            _ => self.ident(token),
        }
    }

    /// Adds a class name that stands in a type or behind `new`.
    pub fn mention(&mut self, name: Ident) -> Result<(), ParseError>
        ensures mentioned { MentionsClass name self.old self.new result }
        ensures onward { Onward self.old self.new }
    {
        Ok(self.program.push_mention(name)?)
    }

    /// Adds a statement, and answers its place.
    pub fn add_stmt(&mut self, stmt: Stmt) -> Result<u32, ParseError>
        requires { KindPlaced (length self.old.program.exprs) (length self.old.program.stmts) stmt.kind }
        ensures pushed { PushesStmt stmt self.old self.new result }
        ensures onward { Onward self.old self.new }
        ensures below { IfOk result (λ n. n < length self.new.program.stmts) }
    {
        Ok(self.program.push_stmt(stmt)?)
    }
}
