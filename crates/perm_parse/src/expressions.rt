//! Expressions, read by descent.

ghost use Rattle.std.specs.Prelude.{◌≡◌, ℕ, ◌+◌, ◌<◌, ◌≤◌, length, slice_get, IfOk};
ghost use Rattle.perm_parse.specs.Grammar.{level, unary_sign};
ghost use Rattle.perm_parse.specs.Machine.{op_of};
ghost use Rattle.perm_parse.specs.ParserResults.{IsClosed, IsNext, Onward, ReadsExpr, of_level, operator_at};
ghost use Rattle.perm_parse.specs.Parses.{deepest};

use crate::parser::Parser;
use perm_tree::ast::{BinaryOp, Expr, UnaryOp};
use perm_tree::errors::ParseError;
use perm_tree::tokens::TokenKind;

/// The operator that a token is between two operands.
fn op_of(kind: TokenKind) -> Option<BinaryOp>
    ensures { result ≡ op_of kind }
{
    match kind {
        TokenKind::Star => Some(BinaryOp::Mul),
        TokenKind::Slash => Some(BinaryOp::Div),
        TokenKind::Percent => Some(BinaryOp::Rem),
        TokenKind::Plus => Some(BinaryOp::Plus),
        TokenKind::Minus => Some(BinaryOp::Minus),
        TokenKind::Less => Some(BinaryOp::Less),
        TokenKind::AtMost => Some(BinaryOp::AtMost),
        TokenKind::Greater => Some(BinaryOp::Greater),
        TokenKind::AtLeast => Some(BinaryOp::AtLeast),
        TokenKind::Equal => Some(BinaryOp::Equal),
        TokenKind::Differs => Some(BinaryOp::Differs),
        TokenKind::And => Some(BinaryOp::And),
        TokenKind::Or => Some(BinaryOp::Or),
        _ => None,
    }
}

/// How loosely an operator binds.
fn level(op: BinaryOp) -> u8
    ensures { result ≡ level op }
{
    match op {
        BinaryOp::Mul => 1,
        BinaryOp::Div => 1,
        BinaryOp::Rem => 1,
        BinaryOp::Plus => 2,
        BinaryOp::Minus => 2,
        BinaryOp::Less => 3,
        BinaryOp::AtMost => 3,
        BinaryOp::Greater => 3,
        BinaryOp::AtLeast => 3,
        BinaryOp::Equal => 4,
        BinaryOp::Differs => 4,
        BinaryOp::And => 5,
        BinaryOp::Or => 6,
    }
}

/// The operator, if it is of this level.
fn of_level(op: Option<BinaryOp>, wanted: u8) -> Option<BinaryOp>
    ensures { result ≡ of_level wanted op }
{
    match op {
        Some(op) => { if level(op) == wanted { Some(op) } else { None } }
        None => None,
    }
}

/// The token before a unary operator's operand.
fn unary_sign(op: UnaryOp) -> TokenKind
    ensures { result ≡ unary_sign op }
{
    match op {
        UnaryOp::Minus => TokenKind::Minus,
        UnaryOp::Not => TokenKind::Bang,
    }
}

impl<'a> Parser<'a> {
    /// The operator that comes next, if it is of this level.
    fn operator(&self, wanted: u8) -> Option<BinaryOp>
        ensures { result ≡ operator_at wanted (slice_get self.now.tokens.now self.now.at) }
    {
        match self.peek() {
            Some(token) => of_level(op_of(token.kind), wanted),
            None => None,
        }
    }

    /// An operand with the unary operators before it.
    #[cycle(expressions)]
    #[tactic(auto, using(std::proofs::lemmas::Option::slice_get_within))]
    fn unary(&mut self, depth: usize) -> Result<u32, ParseError>
        requires { depth ≤ deepest }
        ensures reads { ReadsExpr 0 depth self.old self.new result }
        ensures onward { Onward self.old self.new }
        ensures below { IfOk result (λ e. e < length self.new.program.exprs) }
    {
        let Some(token) = self.peek() else {
            return Err(self.unexpected());
        };
        match token.kind {
            TokenKind::Number => {
                self.advance();
                self.add_expr(Expr::Number(token.value.cast_signed()))
            }
            TokenKind::True => {
                self.advance();
                self.add_expr(Expr::Bool(true))
            }
            TokenKind::False => {
                self.advance();
                self.add_expr(Expr::Bool(false))
            }
            TokenKind::Null => {
                self.advance();
                self.add_expr(Expr::Null)
            }
            TokenKind::Name => {
                self.advance();
                let name = self.var(token)?;
                self.add_expr(Expr::Var(name))
            }
            TokenKind::This => {
                self.advance();
                let name = self.var(token)?;
                self.add_expr(Expr::Var(name))
            }
            TokenKind::Minus => self.prefixed(depth, UnaryOp::Minus),
            TokenKind::Bang => self.prefixed(depth, UnaryOp::Not),
            TokenKind::OpenParen => self.parens(depth),
            _ => Err(self.unexpected()),
        }
    }

    /// A unary operator with its operand.
    #[cycle(expressions)]
    fn prefixed(&mut self, depth: usize, op: UnaryOp) -> Result<u32, ParseError>
        requires depth { depth ≤ deepest }
        requires next { IsNext (unary_sign op) self.old }
        ensures reads { ReadsExpr 0 depth self.old self.new result }
        ensures onward { Onward self.old self.new }
        ensures below { IfOk result (λ e. e < length self.new.program.exprs) }
    {
        self.open(unary_sign(op), depth)?;
        let operand = self.unary(depth + 1)?;
        self.add_expr(Expr::Unary(op, operand))
    }

    /// `( E )`
    #[cycle(expressions)]
    fn parens(&mut self, depth: usize) -> Result<u32, ParseError>
        requires depth { depth ≤ deepest }
        requires next { IsNext TokenKind.OpenParen self.old }
        ensures reads { ReadsExpr 0 depth self.old self.new result }
        ensures onward { Onward self.old self.new }
        ensures below { IfOk result (λ e. e < length self.new.program.exprs) }
    {
        self.open(TokenKind::OpenParen, depth)?;
        let inner = self.binary(depth + 1, 6)?;
        self.expect(TokenKind::CloseParen)?;
        Ok(inner)
    }

    /// Operands joined by operators that bind at least as tight as `loosest`.
    #[cycle(expressions)]
    #[tactic(auto, using(std::proofs::lemmas::Option::slice_get_within))]
    pub fn binary(&mut self, depth: usize, loosest: u8) -> Result<u32, ParseError>
        requires depth { depth ≤ deepest }
        requires loosest { loosest ≤ 6 }
        ensures reads { ReadsExpr loosest depth self.old self.new result }
        ensures closed { IfOk result (λ e. IsClosed loosest self.new) }
        ensures onward { Onward self.old self.new }
        ensures below { IfOk result (λ e. e < length self.new.program.exprs) }
    {
        if loosest == 0 {
            return self.unary(depth);
        }
        let mut left = self.binary(depth, loosest - 1)?;
        'operators: while let Some(op) = self.operator(loosest) {
            self.advance();
            let right = self.binary(depth, loosest - 1)?;
            left = self.add_expr(Expr::Binary(op, left, right))?;
        }
        Ok(left)
    }
}
