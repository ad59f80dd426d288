//! Statements with no block, read by descent.

ghost use Rattle.std.specs.Prelude.{◌≡◌, ℕ, ◌≤◌, ◌<◌, length, IfOk};
ghost use Rattle.perm_parse.specs.Meaning.{span_over};
ghost use Rattle.perm_parse.specs.ParserResults.{IsNext, Onward, ReadsStmt};
ghost use Rattle.perm_parse.specs.Parses.{deepest};

use crate::parser::Parser;
use perm_tree::ast::{Span, Stmt, StmtKind};
use perm_tree::errors::ParseError;
use perm_tree::tokens::{Token, TokenKind};

/// From the first byte of one token to the last of another.
pub fn span_over(first: Token, last: Token) -> Span
    ensures { result ≡ span_over first last }
{
    Span {
        start: first.span.start,
        end: last.span.end,
    }
}

impl<'a> Parser<'a> {
    /// `print E;`
    pub fn print_stmt(&mut self, depth: usize) -> Result<u32, ParseError>
        requires depth { depth ≤ deepest }
        requires next { IsNext TokenKind.Print self.old }
        ensures reads { ReadsStmt depth self.old self.new result }
        ensures onward { Onward self.old self.new }
        ensures below { IfOk result (λ n. n < length self.new.program.stmts) }
        ensures ahead { IfOk result (λ n. self.old.at < self.new.at) }
    {
        let word = self.expect(TokenKind::Print)?;
        let value = self.binary(depth, 6)?;
        let end = self.expect(TokenKind::Semicolon)?;
        self.add_stmt(Stmt {
            span: span_over(word, end),
            head: span_over(word, end),
            kind: StmtKind::Print(value),
        })
    }
}
