//! Right sides of assignments, read by descent.

ghost use Rattle.std.specs.Prelude.{◌≡◌, ℕ, ◌≤◌, ◌<◌, length, IfOk};
ghost use Rattle.perm_tree.specs.Places.{RhsPlaced};
ghost use Rattle.perm_parse.specs.ParserResults.{IsNext, IsNextVar, IsNotSecond, IsPlain, IsSecond, Onward, ReadsValue};
ghost use Rattle.perm_parse.specs.Parses.{deepest};

use crate::parser::{Parser, Value};
use perm_tree::ast::{Arg, Call, Rhs};
use perm_tree::errors::ParseError;
use perm_tree::tokens::TokenKind;

impl<'a> Parser<'a> {
    /// `E;`
    pub fn plain_value(&mut self, depth: usize) -> Result<Value, ParseError>
        requires depth { depth ≤ deepest }
        requires plain { IsPlain self.old }
        ensures reads { ReadsValue depth self.old self.new result }
        ensures onward { Onward self.old self.new }
        ensures placed { IfOk result (λ v. RhsPlaced (length self.new.program.exprs) (length self.new.program.stmts) v.rhs) }
    {
        let e = self.binary(depth, 6)?;
        let end = self.expect(TokenKind::Semicolon)?;
        Ok(Value {
            rhs: Rhs::Value(Arg::Expr(e)),
            head: end,
            end,
        })
    }

    /// `new C();`
    pub fn object_value(&mut self, depth: usize) -> Result<Value, ParseError>
        requires depth { depth ≤ deepest }
        requires next { IsNext TokenKind.New self.old }
        requires no_long { IsNotSecond TokenKind.Long self.old }
        ensures reads { ReadsValue depth self.old self.new result }
        ensures onward { Onward self.old self.new }
        ensures placed { IfOk result (λ v. RhsPlaced (length self.new.program.exprs) (length self.new.program.stmts) v.rhs) }
    {
        let _word = self.expect(TokenKind::New)?;
        let token = self.expect(TokenKind::Name)?;
        let name = self.ident(token)?;
        self.mention(name)?;
        let _opening = self.open(TokenKind::OpenParen, depth)?;
        let _closing = self.expect(TokenKind::CloseParen)?;
        let end = self.expect(TokenKind::Semicolon)?;
        Ok(Value {
            rhs: Rhs::New(name),
            head: end,
            end,
        })
    }

    /// `new long[E];`
    pub fn array_value(&mut self, depth: usize) -> Result<Value, ParseError>
        requires depth { depth ≤ deepest }
        requires next { IsNext TokenKind.New self.old }
        requires long { IsSecond TokenKind.Long self.old }
        ensures reads { ReadsValue depth self.old self.new result }
        ensures onward { Onward self.old self.new }
        ensures placed { IfOk result (λ v. RhsPlaced (length self.new.program.exprs) (length self.new.program.stmts) v.rhs) }
    {
        let _word = self.expect(TokenKind::New)?;
        let _long = self.expect(TokenKind::Long)?;
        let _opening = self.open(TokenKind::OpenBracket, depth)?;
        let count = self.binary(depth + 1, 6)?;
        let _closing = self.expect(TokenKind::CloseBracket)?;
        let end = self.expect(TokenKind::Semicolon)?;
        Ok(Value {
            rhs: Rhs::NewArray(count),
            head: end,
            end,
        })
    }

    /// `consume x;` or `consume x.f;`
    pub fn consumed_value(&mut self, depth: usize) -> Result<Value, ParseError>
        requires depth { depth ≤ deepest }
        requires next { IsNext TokenKind.Consume self.old }
        ensures reads { ReadsValue depth self.old self.new result }
        ensures onward { Onward self.old self.new }
        ensures placed { IfOk result (λ v. RhsPlaced (length self.new.program.exprs) (length self.new.program.stmts) v.rhs) }
    {
        let _word = self.expect(TokenKind::Consume)?;
        let token = self.variable()?;
        let name = self.var(token)?;
        if self.next_is(TokenKind::Dot) {
            let _dot = self.expect(TokenKind::Dot)?;
            let member = self.expect(TokenKind::Name)?;
            let field = self.ident(member)?;
            let end = self.expect(TokenKind::Semicolon)?;
            return Ok(Value {
                rhs: Rhs::TakeField(name, field),
                head: end,
                end,
            });
        }
        let last = self.expect(TokenKind::Semicolon)?;
        Ok(Value {
            rhs: Rhs::Value(Arg::Consume(name)),
            head: last,
            end: last,
        })
    }

    /// `x[E];`
    pub fn item_value(&mut self, depth: usize) -> Result<Value, ParseError>
        requires depth { depth ≤ deepest }
        requires next { IsNextVar self.old }
        requires bracket { IsSecond TokenKind.OpenBracket self.old }
        ensures reads { ReadsValue depth self.old self.new result }
        ensures onward { Onward self.old self.new }
        ensures placed { IfOk result (λ v. RhsPlaced (length self.new.program.exprs) (length self.new.program.stmts) v.rhs) }
    {
        let token = self.variable()?;
        let name = self.var(token)?;
        let _opening = self.open(TokenKind::OpenBracket, depth)?;
        let index = self.binary(depth + 1, 6)?;
        let _closing = self.expect(TokenKind::CloseBracket)?;
        let end = self.expect(TokenKind::Semicolon)?;
        Ok(Value {
            rhs: Rhs::Item(name, index),
            head: end,
            end,
        })
    }

    /// `x.f;` or `x.m(..);`
    pub fn member_value(&mut self, depth: usize) -> Result<Value, ParseError>
        requires depth { depth ≤ deepest }
        requires next { IsNextVar self.old }
        requires dot { IsSecond TokenKind.Dot self.old }
        ensures reads { ReadsValue depth self.old self.new result }
        ensures onward { Onward self.old self.new }
        ensures placed { IfOk result (λ v. RhsPlaced (length self.new.program.exprs) (length self.new.program.stmts) v.rhs) }
    {
        let token = self.variable()?;
        let on = self.var(token)?;
        let _dot = self.expect(TokenKind::Dot)?;
        let member = self.expect(TokenKind::Name)?;
        let name = self.ident(member)?;
        if self.next_is(TokenKind::OpenParen) {
            let _opening = self.open(TokenKind::OpenParen, depth)?;
            let args = self.args(depth + 1)?;
            let end = self.expect(TokenKind::Semicolon)?;
            return Ok(Value {
                rhs: Rhs::Call(Call {
                    consumed: false,
                    on,
                    method: name,
                    args,
                }),
                head: end,
                end,
            });
        }
        let last = self.expect(TokenKind::Semicolon)?;
        Ok(Value {
            rhs: Rhs::Field(on, name),
            head: last,
            end: last,
        })
    }

    /// `(consume x).m(..);`
    pub fn given_value(&mut self, depth: usize) -> Result<Value, ParseError>
        requires depth { depth ≤ deepest }
        requires next { IsNext TokenKind.OpenParen self.old }
        requires word { IsSecond TokenKind.Consume self.old }
        ensures reads { ReadsValue depth self.old self.new result }
        ensures onward { Onward self.old self.new }
        ensures placed { IfOk result (λ v. RhsPlaced (length self.new.program.exprs) (length self.new.program.stmts) v.rhs) }
    {
        let _opening = self.open(TokenKind::OpenParen, depth)?;
        let _word = self.expect(TokenKind::Consume)?;
        let call = self.given_call(depth)?;
        let end = self.expect(TokenKind::Semicolon)?;
        Ok(Value {
            rhs: Rhs::Call(call),
            head: end,
            end,
        })
    }

    /// A right side that begins with `new`
    pub fn new_value(&mut self, depth: usize) -> Result<Value, ParseError>
        requires depth { depth ≤ deepest }
        requires next { IsNext TokenKind.New self.old }
        ensures reads { ReadsValue depth self.old self.new result }
        ensures onward { Onward self.old self.new }
        ensures placed { IfOk result (λ v. RhsPlaced (length self.new.program.exprs) (length self.new.program.stmts) v.rhs) }
    {
        if self.second_is(TokenKind::Long) {
            return self.array_value(depth);
        }
        self.object_value(depth)
    }

    /// A right side that begins with a variable
    pub fn var_value(&mut self, depth: usize) -> Result<Value, ParseError>
        requires depth { depth ≤ deepest }
        requires next { IsNextVar self.old }
        ensures reads { ReadsValue depth self.old self.new result }
        ensures onward { Onward self.old self.new }
        ensures placed { IfOk result (λ v. RhsPlaced (length self.new.program.exprs) (length self.new.program.stmts) v.rhs) }
    {
        if self.second_is(TokenKind::Dot) {
            return self.member_value(depth);
        }
        if self.second_is(TokenKind::OpenBracket) {
            return self.item_value(depth);
        }
        self.plain_value(depth)
    }

    /// A right side that begins with a parenthesis
    pub fn paren_value(&mut self, depth: usize) -> Result<Value, ParseError>
        requires depth { depth ≤ deepest }
        requires next { IsNext TokenKind.OpenParen self.old }
        ensures reads { ReadsValue depth self.old self.new result }
        ensures onward { Onward self.old self.new }
        ensures placed { IfOk result (λ v. RhsPlaced (length self.new.program.exprs) (length self.new.program.stmts) v.rhs) }
    {
        if self.second_is(TokenKind::Consume) {
            return self.given_value(depth);
        }
        self.plain_value(depth)
    }
}
