//! Members of classes, read by descent. A member stands at level 1, and the parts of a method at level 2.

ghost use Rattle.std.specs.Prelude.{◌≡◌, ℕ, ◌<◌, ◌≤◌, length, IfOk, OnOk};
ghost use Rattle.perm_tree.specs.Places.{AllBelow, ArgPlaced, ClassPlaced, MethodPlaced};
ghost use Rattle.perm_parse.specs.ParserResults.{IsNoStmtNext, IsNext, IsNotNext, Onward};
ghost use Rattle.perm_parse.specs.MemberResults.{TakesPerm, ReadsDecl, ReadsMember, ReadsMembers, ReadsMethod, ReadsParams, ReadsReturned, ReadsSignature};
ghost use Rattle.perm_parse.specs.Parses.{deepest};

use crate::cursor::append;
use crate::parser::Parser;
use crate::statements::span_over;
use perm_tree::ast::{Arg, Block, ClassDecl, FieldDecl, Ident, Method, Perm, Span};
use perm_tree::errors::ParseError;
use perm_tree::list::List;
use perm_tree::tokens::TokenKind;

/// What stands between the name of a method and its body.
#[derive(Drop)]
struct Signature {
    params: List<FieldDecl>,
    receiver: Perm,
}

/// What a method returns, and the span of its `return` with the `;`.
#[derive(Drop)]
struct Returned {
    back: Arg,
    span: Span,
}

impl<'a> Parser<'a> {
    /// A type and a name
    fn decl(&mut self, depth: usize) -> Result<FieldDecl, ParseError>
        requires { depth ≤ deepest }
        ensures reads { ReadsDecl depth self.old self.new result }
        ensures onward { Onward self.old self.new }
        ensures ahead { IfOk result (λ d. self.old.at < self.new.at) }
    {
        let ty = self.ty(depth)?;
        let token = self.expect(TokenKind::Name)?;
        let name = self.ident(token)?;
        Ok(FieldDecl { ty, name })
    }

    /// The parameters of a method and their closing parenthesis, behind the opening one
    fn params(&mut self) -> Result<List<FieldDecl>, ParseError>
        ensures reads { ReadsParams self.old self.new result }
        ensures onward { Onward self.old self.new }
    {
        if self.next_is(TokenKind::CloseParen) {
            let _closing = self.expect(TokenKind::CloseParen)?;
            return Ok(List::new(self.alloc));
        }
        let mut list = List::new(self.alloc);
        let first = self.decl(2)?;
        append(&mut list, first)?;
        'params: while self.next_is(TokenKind::Comma) {
            let _comma = self.expect(TokenKind::Comma)?;
            let more = self.decl(2)?;
            append(&mut list, more)?;
        }
        let _end = self.expect(TokenKind::CloseParen)?;
        Ok(list)
    }

    /// The word of a permission
    fn perm(&mut self) -> Result<Perm, ParseError>
        ensures expected { TakesPerm self.old self.new result }
        ensures onward { Onward self.old self.new }
    {
        let Some(token) = self.peek() else {
            return Err(self.unexpected());
        };
        let perm = match token.kind {
            TokenKind::Isolated => Perm::Isolated,
            TokenKind::Immutable => Perm::Immutable,
            TokenKind::Readable => Perm::Readable,
            TokenKind::Writable => Perm::Writable,
            _ => return Err(self.unexpected()),
        };
        self.advance();
        Ok(perm)
    }

    /// `( Params ) Perm {`, behind the name of a method
    fn signature(&mut self) -> Result<Signature, ParseError>
        requires { IsNext TokenKind.OpenParen self.old }
        ensures reads { ReadsSignature self.old self.new result }
        ensures onward { Onward self.old self.new }
    {
        let _opening = self.open(TokenKind::OpenParen, 1)?;
        let params = self.params()?;
        let receiver = self.perm()?;
        let _start = self.open(TokenKind::OpenBrace, 1)?;
        Ok(Signature { params, receiver })
    }

    /// `return A; }`, behind the statements of a method
    fn returned(&mut self) -> Result<Returned, ParseError>
        requires { IsNoStmtNext self.old }
        ensures reads { ReadsReturned self.old self.new result }
        ensures onward { Onward self.old self.new }
        ensures placed { IfOk result (λ r. ArgPlaced (length self.new.program.exprs) r.back) }
    {
        let word = self.expect(TokenKind::Return)?;
        let back = self.arg(2)?;
        let end = self.expect(TokenKind::Semicolon)?;
        let _finish = self.expect(TokenKind::CloseBrace)?;
        Ok(Returned {
            back,
            span: span_over(word, end),
        })
    }

    /// A method, behind its type and its name
    fn method(&mut self, head: FieldDecl) -> Result<Method, ParseError>
        requires { IsNext TokenKind.OpenParen self.old }
        ensures reads { ReadsMethod self.old self.new head result }
        ensures onward { Onward self.old self.new }
        ensures placed { IfOk result (MethodPlaced (length self.new.program.exprs) (length self.new.program.stmts)) }
    {
        let signature = self.signature()?;
        let stmts = self.stmts(2)?;
        let returned = self.returned()?;
        Ok(Method {
            result: head.ty,
            name: head.name,
            params: signature.params,
            receiver: signature.receiver,
            body: Block { stmts },
            back: returned.back,
            span: returned.span,
        })
    }

    /// A field or a method, added behind those of the class so far
    fn member(&mut self, class: &mut ClassDecl) -> Result<(), ParseError>
        requires starts { IsNotNext TokenKind.CloseBrace self.old }
        requires placed { ClassPlaced (length self.old.program.exprs) (length self.old.program.stmts) class.old }
        ensures reads { ReadsMember self.old self.new class.old class.new result }
        ensures onward { Onward self.old self.new }
        ensures placed { OnOk result (ClassPlaced (length self.new.program.exprs) (length self.new.program.stmts) class.new) }
        ensures ahead { OnOk result (self.old.at < self.new.at) }
    {
        let head = self.decl(1)?;
        if self.next_is(TokenKind::OpenParen) {
            let method = self.method(head)?;
            append(&mut class.methods, method)
        } else {
            let _end = self.expect(TokenKind::Semicolon)?;
            append(&mut class.fields, head)
        }
    }

    /// The members of a class and its closing brace, behind the opening one
    pub fn members(&mut self, name: Ident) -> Result<ClassDecl, ParseError>
        ensures reads { ReadsMembers self.old self.new result }
        ensures onward { Onward self.old self.new }
        ensures name { IfOk result (λ c. c.name ≡ name) }
        ensures placed { IfOk result (ClassPlaced (length self.new.program.exprs) (length self.new.program.stmts)) }
    {
        let mut class = ClassDecl {
            name,
            fields: List::new(self.alloc),
            methods: List::new(self.alloc),
        };
        'members: while !self.next_is(TokenKind::CloseBrace) {
            self.member(&mut class)?;
        }
        let _closing = self.expect(TokenKind::CloseBrace)?;
        Ok(class)
    }
}
