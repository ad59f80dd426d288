//! Arguments, read by descent.

ghost use Rattle.std.specs.Prelude.{ℕ, ◌+◌, ◌<◌, ◌≤◌, length, IfOk};
ghost use Rattle.perm_tree.specs.Places.{ArgPlaced, ArgsPlaced};
ghost use Rattle.perm_parse.specs.ParserResults.{IsNext, Onward, ReadsArg, ReadsArgs, ReadsGiven};
ghost use Rattle.perm_parse.specs.Parses.{deepest};

use crate::cursor::append;
use crate::parser::Parser;
use perm_tree::ast::{Arg, Call};
use perm_tree::errors::ParseError;
use perm_tree::list::List;
use perm_tree::tokens::TokenKind;

impl<'a> Parser<'a> {
    /// `E` or `consume x`
    pub fn arg(&mut self, depth: usize) -> Result<Arg, ParseError>
        requires { depth ≤ deepest }
        ensures reads { ReadsArg depth self.old self.new result }
        ensures onward { Onward self.old self.new }
        ensures placed { IfOk result (ArgPlaced (length self.new.program.exprs)) }
    {
        if self.next_is(TokenKind::Consume) {
            return self.consumed(depth);
        }
        let value = self.binary(depth, 6)?;
        Ok(Arg::Expr(value))
    }

    /// `consume x`
    fn consumed(&mut self, depth: usize) -> Result<Arg, ParseError>
        requires depth { depth ≤ deepest }
        requires next { IsNext TokenKind.Consume self.old }
        ensures reads { ReadsArg depth self.old self.new result }
        ensures onward { Onward self.old self.new }
        ensures placed { IfOk result (ArgPlaced (length self.new.program.exprs)) }
    {
        let _word = self.expect(TokenKind::Consume)?;
        let token = self.variable()?;
        let name = self.var(token)?;
        Ok(Arg::Consume(name))
    }

    /// The arguments of a call and its closing parenthesis, behind the opening one.
    pub fn args(&mut self, depth: usize) -> Result<List<Arg>, ParseError>
        requires { depth ≤ deepest }
        ensures reads { ReadsArgs depth self.old self.new result }
        ensures onward { Onward self.old self.new }
        ensures placed { IfOk result (ArgsPlaced (length self.new.program.exprs)) }
    {
        if self.next_is(TokenKind::CloseParen) {
            let _closing = self.expect(TokenKind::CloseParen)?;
            return Ok(List::new(self.alloc));
        }
        let mut list = List::new(self.alloc);
        let first = self.arg(depth)?;
        append(&mut list, first)?;
        'arguments: while self.next_is(TokenKind::Comma) {
            let _comma = self.expect(TokenKind::Comma)?;
            let more = self.arg(depth)?;
            append(&mut list, more)?;
        }
        let _end = self.expect(TokenKind::CloseParen)?;
        Ok(list)
    }

    /// A call behind its `( consume`
    pub fn given_call(&mut self, depth: usize) -> Result<Call, ParseError>
        requires { depth < deepest }
        ensures reads { ReadsGiven depth self.old self.new result }
        ensures onward { Onward self.old self.new }
        ensures placed { IfOk result (λ c. ArgsPlaced (length self.new.program.exprs) c.args) }
    {
        let token = self.variable()?;
        let on = self.var(token)?;
        let _closing = self.expect(TokenKind::CloseParen)?;
        let _dot = self.expect(TokenKind::Dot)?;
        let member = self.expect(TokenKind::Name)?;
        let method = self.ident(member)?;
        let _opening = self.open(TokenKind::OpenParen, depth)?;
        let list = self.args(depth + 1)?;
        Ok(Call {
            consumed: true,
            on,
            method,
            args: list,
        })
    }
}
