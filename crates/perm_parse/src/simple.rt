//! The head of a declaration, and the statements that begin with a variable or a receiver, read by descent.

ghost use Rattle.std.specs.Prelude.{◌≡◌, ℕ, ◌≤◌, ◌<◌, length, IfOk};
ghost use Rattle.perm_tree.specs.Places.{KindPlaced};
ghost use Rattle.perm_parse.specs.ParserResults.{EndsStmt, IsNext, IsNextType, IsNextVar, IsSecond, Onward, ReadsLocal, ReadsStmt};
ghost use Rattle.perm_parse.specs.Parses.{deepest};

use crate::parser::{LocalHead, Parser};
use crate::statements::span_over;
use perm_tree::ast::{Call, Stmt, StmtKind};
use perm_tree::errors::ParseError;
use perm_tree::tokens::{Token, TokenKind};

impl<'a> Parser<'a> {
    /// `Type x`, where a local variable is declared
    pub fn local_head(&mut self, depth: usize) -> Result<LocalHead, ParseError>
        requires depth { depth ≤ deepest }
        requires next { IsNextType self.old }
        ensures reads { ReadsLocal depth self.old self.new result }
        ensures onward { Onward self.old self.new }
        ensures ahead { IfOk result (λ h. self.old.at < self.new.at) }
    {
        let Some(first) = self.peek() else {
            return Err(self.unexpected());
        };
        let ty = self.ty(depth)?;
        let token = self.expect(TokenKind::Name)?;
        let name = self.ident(token)?;
        Ok(LocalHead { ty, name, first })
    }

    /// Takes the semicolon of a statement with no block, adds the statement, and answers its place.
    pub fn end_stmt(&mut self, first: Token, kind: StmtKind) -> Result<u32, ParseError>
        requires { KindPlaced (length self.old.program.exprs) (length self.old.program.stmts) kind }
        ensures ends { EndsStmt first kind self.old self.new result }
        ensures onward { Onward self.old self.new }
        ensures below { IfOk result (λ n. n < length self.new.program.stmts) }
    {
        let end = self.expect(TokenKind::Semicolon)?;
        self.add_stmt(Stmt {
            span: span_over(first, end),
            head: span_over(first, end),
            kind,
        })
    }

    /// `y[i] = e;`
    pub fn item_stmt(&mut self, depth: usize) -> Result<u32, ParseError>
        requires depth { depth ≤ deepest }
        requires next { IsNextVar self.old }
        requires bracket { IsSecond TokenKind.OpenBracket self.old }
        ensures reads { ReadsStmt depth self.old self.new result }
        ensures onward { Onward self.old self.new }
        ensures below { IfOk result (λ n. n < length self.new.program.stmts) }
        ensures ahead { IfOk result (λ n. self.old.at < self.new.at) }
    {
        let token = self.variable()?;
        let name = self.var(token)?;
        let _opening = self.open(TokenKind::OpenBracket, depth)?;
        let index = self.binary(depth + 1, 6)?;
        let _closing = self.expect(TokenKind::CloseBracket)?;
        let _equals = self.expect(TokenKind::Assign)?;
        let value = self.binary(depth, 6)?;
        self.end_stmt(token, StmtKind::SetItem(name, index, value))
    }

    /// `y.f = A;` or `y.m(..);`
    pub fn member_stmt(&mut self, depth: usize) -> Result<u32, ParseError>
        requires depth { depth ≤ deepest }
        requires next { IsNextVar self.old }
        requires dot { IsSecond TokenKind.Dot self.old }
        ensures reads { ReadsStmt depth self.old self.new result }
        ensures onward { Onward self.old self.new }
        ensures below { IfOk result (λ n. n < length self.new.program.stmts) }
        ensures ahead { IfOk result (λ n. self.old.at < self.new.at) }
    {
        let token = self.variable()?;
        let on = self.var(token)?;
        let _dot = self.expect(TokenKind::Dot)?;
        let member = self.expect(TokenKind::Name)?;
        let name = self.ident(member)?;
        if self.next_is(TokenKind::OpenParen) {
            let _opening = self.open(TokenKind::OpenParen, depth)?;
            let args = self.args(depth + 1)?;
            let call = Call {
                consumed: false,
                on,
                method: name,
                args,
            };
            return self.end_stmt(token, StmtKind::Call(call));
        }
        let _equals = self.expect(TokenKind::Assign)?;
        let value = self.arg(depth)?;
        self.end_stmt(token, StmtKind::SetField(on, name, value))
    }

    /// `(consume y).m(..);`
    pub fn given_stmt(&mut self, depth: usize) -> Result<u32, ParseError>
        requires depth { depth ≤ deepest }
        requires next { IsNext TokenKind.OpenParen self.old }
        ensures reads { ReadsStmt depth self.old self.new result }
        ensures onward { Onward self.old self.new }
        ensures below { IfOk result (λ n. n < length self.new.program.stmts) }
        ensures ahead { IfOk result (λ n. self.old.at < self.new.at) }
    {
        let opening = self.open(TokenKind::OpenParen, depth)?;
        let _word = self.expect(TokenKind::Consume)?;
        let call = self.given_call(depth)?;
        self.end_stmt(opening, StmtKind::Call(call))
    }
}
