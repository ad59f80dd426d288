//! Statements with blocks, and lists of statements, read by descent.

ghost use Rattle.std.specs.Prelude.{◌≡◌, ℕ, ◌+◌, ◌≤◌, ◌<◌, length, IfOk};
ghost use Rattle.std.specs.Bool.{OnTrue, OnFalse};
ghost use Rattle.perm_tree.specs.Places.{AllBelow, RhsPlaced};
ghost use Rattle.perm_parse.specs.ParserResults.{IsStmtNext, IsNoStmtNext, IsNext, IsNextType, IsNotSecond, Onward, ReadsBlock, ReadsStmt, ReadsStmts, ReadsTest, ReadsValue, begins_stmt};
ghost use Rattle.perm_parse.specs.Parses.{deepest};

use crate::cursor::append;
use crate::parser::{Braced, Parser, Test, Value};
use crate::statements::span_over;
use perm_tree::ast::{Block, Rhs, Stmt, StmtKind};
use perm_tree::errors::ParseError;
use perm_tree::list::List;
use perm_tree::tokens::TokenKind;

/// Whether a statement begins with a token of this kind.
fn begins_stmt(kind: TokenKind) -> bool
    ensures { result ≡ begins_stmt kind }
{
    match kind {
        TokenKind::Name => true,
        TokenKind::This => true,
        TokenKind::OpenParen => true,
        TokenKind::Long => true,
        TokenKind::Bool => true,
        TokenKind::Isolated => true,
        TokenKind::Immutable => true,
        TokenKind::Readable => true,
        TokenKind::Writable => true,
        TokenKind::Print => true,
        TokenKind::If => true,
        TokenKind::While => true,
        TokenKind::Par => true,
        _ => false,
    }
}

impl<'a> Parser<'a> {
    /// Whether a statement comes next.
    fn at_stmt(&self) -> bool
        ensures yes { OnTrue result (IsStmtNext self.now) }
        ensures no { OnFalse result (IsNoStmtNext self.now) }
    {
        match self.peek() {
            Some(token) => begins_stmt(token.kind),
            None => false,
        }
    }

    /// Statements, up to a token that begins none.
    #[cycle(statements)]
    pub fn stmts(&mut self, depth: usize) -> Result<List<u32>, ParseError>
        requires { depth ≤ deepest }
        ensures reads { ReadsStmts depth self.old self.new result }
        ensures ended { IfOk result (λ list. IsNoStmtNext self.new) }
        ensures onward { Onward self.old self.new }
        ensures below { IfOk result (AllBelow (length self.new.program.stmts)) }
    {
        let mut list = List::new(self.alloc);
        'statements: while self.at_stmt() {
            let place = self.stmt(depth)?;
            append(&mut list, place)?;
        }
        Ok(list)
    }

    /// A statement.
    #[cycle(statements)]
    fn stmt(&mut self, depth: usize) -> Result<u32, ParseError>
        requires depth { depth ≤ deepest }
        requires begun { IsStmtNext self.old }
        ensures reads { ReadsStmt depth self.old self.new result }
        ensures onward { Onward self.old self.new }
        ensures below { IfOk result (λ n. n < length self.new.program.stmts) }
        ensures ahead { IfOk result (λ n. self.old.at < self.new.at) }
    {
        let Some(token) = self.peek() else {
            return Err(self.unexpected());
        };
        match token.kind {
            TokenKind::Name => self.named_stmt(depth),
            TokenKind::This => self.this_stmt(depth),
            TokenKind::OpenParen => self.given_stmt(depth),
            TokenKind::Print => self.print_stmt(depth),
            TokenKind::If => self.if_stmt(depth),
            TokenKind::While => self.while_stmt(depth),
            TokenKind::Par => self.par_stmt(depth),
            _ => self.local_stmt(depth),
        }
    }

    /// A statement that begins with `this`
    fn this_stmt(&mut self, depth: usize) -> Result<u32, ParseError>
        requires depth { depth ≤ deepest }
        requires next { IsNext TokenKind.This self.old }
        ensures reads { ReadsStmt depth self.old self.new result }
        ensures onward { Onward self.old self.new }
        ensures below { IfOk result (λ n. n < length self.new.program.stmts) }
        ensures ahead { IfOk result (λ n. self.old.at < self.new.at) }
    {
        if self.second_is(TokenKind::Dot) {
            return self.member_stmt(depth);
        }
        if self.second_is(TokenKind::OpenBracket) {
            return self.item_stmt(depth);
        }
        let _word = self.expect(TokenKind::This)?;
        Err(self.unexpected())
    }

    /// A statement that begins with a name
    #[cycle(statements)]
    fn named_stmt(&mut self, depth: usize) -> Result<u32, ParseError>
        requires depth { depth ≤ deepest }
        requires next { IsNext TokenKind.Name self.old }
        ensures reads { ReadsStmt depth self.old self.new result }
        ensures onward { Onward self.old self.new }
        ensures below { IfOk result (λ n. n < length self.new.program.stmts) }
        ensures ahead { IfOk result (λ n. self.old.at < self.new.at) }
    {
        if self.second_is(TokenKind::Dot) {
            return self.member_stmt(depth);
        }
        if self.second_is(TokenKind::OpenBracket) {
            return self.item_stmt(depth);
        }
        self.assign_stmt(depth)
    }

    /// `x = R;`
    #[cycle(statements)]
    fn assign_stmt(&mut self, depth: usize) -> Result<u32, ParseError>
        requires depth { depth ≤ deepest }
        requires next { IsNext TokenKind.Name self.old }
        requires no_dot { IsNotSecond TokenKind.Dot self.old }
        requires no_bracket { IsNotSecond TokenKind.OpenBracket self.old }
        ensures reads { ReadsStmt depth self.old self.new result }
        ensures onward { Onward self.old self.new }
        ensures below { IfOk result (λ n. n < length self.new.program.stmts) }
        ensures ahead { IfOk result (λ n. self.old.at < self.new.at) }
    {
        let token = self.expect(TokenKind::Name)?;
        let name = self.ident(token)?;
        let _equals = self.expect(TokenKind::Assign)?;
        let value = self.value(depth)?;
        self.add_stmt(Stmt {
            span: span_over(token, value.end),
            head: span_over(token, value.head),
            kind: StmtKind::Assign(None, name, value.rhs),
        })
    }

    /// `T x;` or `T x = R;`
    #[cycle(statements)]
    fn local_stmt(&mut self, depth: usize) -> Result<u32, ParseError>
        requires depth { depth ≤ deepest }
        requires next { IsNextType self.old }
        ensures reads { ReadsStmt depth self.old self.new result }
        ensures onward { Onward self.old self.new }
        ensures below { IfOk result (λ n. n < length self.new.program.stmts) }
        ensures ahead { IfOk result (λ n. self.old.at < self.new.at) }
    {
        let local = self.local_head(depth)?;
        if self.next_is(TokenKind::Semicolon) {
            let end = self.expect(TokenKind::Semicolon)?;
            return self.add_stmt(Stmt {
                span: span_over(local.first, end),
                head: span_over(local.first, end),
                kind: StmtKind::Declare(local.ty, local.name),
            });
        }
        let _equals = self.expect(TokenKind::Assign)?;
        let value = self.value(depth)?;
        self.add_stmt(Stmt {
            span: span_over(local.first, value.end),
            head: span_over(local.first, value.head),
            kind: StmtKind::Assign(Some(local.ty), local.name, value.rhs),
        })
    }

    /// A right side with its semicolon
    #[cycle(statements)]
    fn value(&mut self, depth: usize) -> Result<Value, ParseError>
        requires depth { depth ≤ deepest }
        ensures reads { ReadsValue depth self.old self.new result }
        ensures onward { Onward self.old self.new }
        ensures placed { IfOk result (λ v. RhsPlaced (length self.new.program.exprs) (length self.new.program.stmts) v.rhs) }
    {
        let Some(token) = self.peek() else {
            return Err(self.unexpected());
        };
        match token.kind {
            TokenKind::Name => self.var_value(depth),
            TokenKind::This => self.var_value(depth),
            TokenKind::OpenParen => self.paren_value(depth),
            TokenKind::Consume => self.consumed_value(depth),
            TokenKind::New => self.new_value(depth),
            TokenKind::Recover => self.recover_value(depth),
            _ => self.plain_value(depth),
        }
    }

    /// `recover { .. give w; };`
    #[cycle(statements)]
    fn recover_value(&mut self, depth: usize) -> Result<Value, ParseError>
        requires depth { depth ≤ deepest }
        requires next { IsNext TokenKind.Recover self.old }
        ensures reads { ReadsValue depth self.old self.new result }
        ensures onward { Onward self.old self.new }
        ensures placed { IfOk result (λ v. RhsPlaced (length self.new.program.exprs) (length self.new.program.stmts) v.rhs) }
    {
        let word = self.expect(TokenKind::Recover)?;
        let _opening = self.open(TokenKind::OpenBrace, depth)?;
        let stmts = self.stmts(depth + 1)?;
        let give = self.expect(TokenKind::Give)?;
        let token = self.expect(TokenKind::Name)?;
        let given = self.ident(token)?;
        let semicolon = self.expect(TokenKind::Semicolon)?;
        let _closing = self.expect(TokenKind::CloseBrace)?;
        let end = self.expect(TokenKind::Semicolon)?;
        Ok(Value {
            rhs: Rhs::Recover(Block { stmts }, given, span_over(give, semicolon)),
            head: word,
            end,
        })
    }

    /// `{ .. }`
    #[cycle(statements)]
    fn block(&mut self, depth: usize) -> Result<Braced, ParseError>
        requires { depth ≤ deepest }
        ensures reads { ReadsBlock depth self.old self.new result }
        ensures onward { Onward self.old self.new }
        ensures below { IfOk result (λ v. AllBelow (length self.new.program.stmts) v.block.stmts) }
    {
        let _opening = self.open(TokenKind::OpenBrace, depth)?;
        let stmts = self.stmts(depth + 1)?;
        let closing = self.expect(TokenKind::CloseBrace)?;
        Ok(Braced {
            block: Block { stmts },
            closing,
        })
    }

    /// `( E )`, behind `if` or `while`
    fn test(&mut self, depth: usize) -> Result<Test, ParseError>
        requires { depth ≤ deepest }
        ensures reads { ReadsTest depth self.old self.new result }
        ensures onward { Onward self.old self.new }
        ensures below { IfOk result (λ v. v.value < length self.new.program.exprs) }
    {
        let _opening = self.open(TokenKind::OpenParen, depth)?;
        let value = self.binary(depth + 1, 6)?;
        let closing = self.expect(TokenKind::CloseParen)?;
        Ok(Test { value, closing })
    }

    /// `if ( E ) { .. }`, and what stands behind `else`
    #[cycle(statements)]
    fn if_stmt(&mut self, depth: usize) -> Result<u32, ParseError>
        requires depth { depth ≤ deepest }
        requires next { IsNext TokenKind.If self.old }
        ensures reads { ReadsStmt depth self.old self.new result }
        ensures onward { Onward self.old self.new }
        ensures below { IfOk result (λ n. n < length self.new.program.stmts) }
        ensures ahead { IfOk result (λ n. self.old.at < self.new.at) }
    {
        let word = self.expect(TokenKind::If)?;
        let test = self.test(depth)?;
        let first = self.block(depth)?;
        if self.next_is(TokenKind::Else) {
            let _otherwise = self.expect(TokenKind::Else)?;
            let second = self.block(depth)?;
            return self.add_stmt(Stmt {
                span: span_over(word, second.closing),
                head: span_over(word, test.closing),
                kind: StmtKind::If(test.value, first.block, Some(second.block)),
            });
        }
        self.add_stmt(Stmt {
            span: span_over(word, first.closing),
            head: span_over(word, test.closing),
            kind: StmtKind::If(test.value, first.block, None),
        })
    }

    /// `while ( E ) { .. }`
    #[cycle(statements)]
    fn while_stmt(&mut self, depth: usize) -> Result<u32, ParseError>
        requires depth { depth ≤ deepest }
        requires next { IsNext TokenKind.While self.old }
        ensures reads { ReadsStmt depth self.old self.new result }
        ensures onward { Onward self.old self.new }
        ensures below { IfOk result (λ n. n < length self.new.program.stmts) }
        ensures ahead { IfOk result (λ n. self.old.at < self.new.at) }
    {
        let word = self.expect(TokenKind::While)?;
        let test = self.test(depth)?;
        let body = self.block(depth)?;
        self.add_stmt(Stmt {
            span: span_over(word, body.closing),
            head: span_over(word, test.closing),
            kind: StmtKind::While(test.value, body.block),
        })
    }

    /// `par { .. } { .. }`
    #[cycle(statements)]
    fn par_stmt(&mut self, depth: usize) -> Result<u32, ParseError>
        requires depth { depth ≤ deepest }
        requires next { IsNext TokenKind.Par self.old }
        ensures reads { ReadsStmt depth self.old self.new result }
        ensures onward { Onward self.old self.new }
        ensures below { IfOk result (λ n. n < length self.new.program.stmts) }
        ensures ahead { IfOk result (λ n. self.old.at < self.new.at) }
    {
        let word = self.expect(TokenKind::Par)?;
        let left = self.block(depth)?;
        let right = self.block(depth)?;
        self.add_stmt(Stmt {
            span: span_over(word, right.closing),
            head: word.span,
            kind: StmtKind::Par(left.block, right.block),
        })
    }
}
