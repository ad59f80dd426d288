//! Types, read by descent.

ghost use Rattle.std.specs.Prelude.{◌≡◌, ℕ, ◌≤◌, IfOk, ◌<◌};
ghost use Rattle.perm_parse.specs.Grammar.{perm_word};
ghost use Rattle.perm_parse.specs.ParserResults.{IsNext, Onward, ReadsShape, ReadsType};
ghost use Rattle.perm_parse.specs.Parses.{deepest};

use crate::parser::Parser;
use perm_tree::ast::{Perm, Shape, Ty};
use perm_tree::errors::ParseError;
use perm_tree::tokens::TokenKind;

/// The word of a permission.
fn perm_word(perm: Perm) -> TokenKind
    ensures { result ≡ perm_word perm }
{
    match perm {
        Perm::Isolated => TokenKind::Isolated,
        Perm::Immutable => TokenKind::Immutable,
        Perm::Readable => TokenKind::Readable,
        Perm::Writable => TokenKind::Writable,
    }
}

impl<'a> Parser<'a> {
    /// `long`, `bool`, or a permission with a class or `long[]`
    pub fn ty(&mut self, depth: usize) -> Result<Ty, ParseError>
        requires { depth ≤ deepest }
        ensures reads { ReadsType depth self.old self.new result }
        ensures onward { Onward self.old self.new }
        ensures ahead { IfOk result (λ t. self.old.at < self.new.at) }
    {
        let Some(token) = self.peek() else {
            return Err(self.unexpected());
        };
        match token.kind {
            TokenKind::Long => {
                let _word = self.expect(TokenKind::Long)?;
                Ok(Ty::Long)
            }
            TokenKind::Bool => {
                let _word = self.expect(TokenKind::Bool)?;
                Ok(Ty::Bool)
            }
            TokenKind::Isolated => self.reference(depth, Perm::Isolated),
            TokenKind::Immutable => self.reference(depth, Perm::Immutable),
            TokenKind::Readable => self.reference(depth, Perm::Readable),
            TokenKind::Writable => self.reference(depth, Perm::Writable),
            _ => Err(self.unexpected()),
        }
    }

    /// A permission with a class or `long[]`
    fn reference(&mut self, depth: usize, perm: Perm) -> Result<Ty, ParseError>
        requires depth { depth ≤ deepest }
        requires next { IsNext (perm_word perm) self.old }
        ensures reads { ReadsType depth self.old self.new result }
        ensures onward { Onward self.old self.new }
        ensures ahead { IfOk result (λ t. self.old.at < self.new.at) }
    {
        let _word = self.expect(perm_word(perm))?;
        self.shape(depth, perm)
    }

    /// A class or `long[]`, behind a permission
    fn shape(&mut self, depth: usize, perm: Perm) -> Result<Ty, ParseError>
        requires { depth ≤ deepest }
        ensures reads { ReadsShape depth perm self.old self.new result }
        ensures onward { Onward self.old self.new }
    {
        if self.next_is(TokenKind::Long) {
            return self.array(depth, perm);
        }
        let token = self.expect(TokenKind::Name)?;
        let name = self.ident(token)?;
        self.mention(name)?;
        Ok(Ty::Ref(perm, Shape::Class(name.name)))
    }

    /// `long[]`, behind a permission
    fn array(&mut self, depth: usize, perm: Perm) -> Result<Ty, ParseError>
        requires depth { depth ≤ deepest }
        requires next { IsNext TokenKind.Long self.old }
        ensures reads { ReadsShape depth perm self.old self.new result }
        ensures onward { Onward self.old self.new }
    {
        let _word = self.expect(TokenKind::Long)?;
        let _opening = self.open(TokenKind::OpenBracket, depth)?;
        let _closing = self.expect(TokenKind::CloseBracket)?;
        Ok(Ty::Ref(perm, Shape::Array))
    }
}
