//! Classes, read by descent. A class stands at level 0.

ghost use Rattle.std.specs.Prelude.{◌≡◌, ℕ, ◌+◌, ◌<◌, ◌≤◌, All, AllPairs, [], ◌∷◌, ◌++◌, length, OnOk, OnErr, IfOk, IfErr, ◌^◌, codes};
ghost use Rattle.perm_tree.specs.Places.{ClassPlaced};
ghost use Rattle.perm_parse.specs.Meaning.{nothing_yet};
ghost use Rattle.perm_parse.specs.ParserResults.{Onward};
ghost use Rattle.perm_parse.specs.MemberResults.{Gives, PushesClass, ReadsClass, ReadsClasses};
ghost use Rattle.perm_parse.specs.Tokens.{IsOver, spellings};

use crate::parser::Parser;
use indexmap::IndexSet;
use perm_tree::ast::ClassDecl;
use perm_tree::errors::ParseError;
use perm_tree::list::Name;
use perm_tree::program::{Program, ProgramBuilder};
use perm_tree::tokens::{Token, TokenKind};
use std::alloc::Global;

/// The program of no classes, whose only name is `this`.
fn nothing_yet(alloc: Global) -> Result<ProgramBuilder, ParseError>
    ensures ok { IfOk result (λ p. p ≡ nothing_yet) }
    ensures err { IfErr result (λ e. e ≡ ParseError.NoMemory) }
{
    let mut program = ProgramBuilder::new(alloc);
    program.push_name(Name::from_vec(b"this".to_vec(alloc)?))?;
    Ok(program)
}

/// The set of the only name `this`.
fn this_alone<'a>(alloc: Global) -> Result<IndexSet<&'a [u8]>, ParseError>
    ensures ok { IfOk result (λ s. spellings s.keys ≡ codes "this" ∷ []) }
    ensures err { IfErr result (λ e. e ≡ ParseError.NoMemory) }
{
    let mut names: IndexSet<&'a [u8]> = IndexSet::new(alloc);
    names.insert(b"this")?;
    Ok(names)
}

/// Reads a program to its end, or up to the first token that is refused.
pub fn read(alloc: Global, text: &[u8], tokens: &[Token]) -> Result<Program, ParseError>
    requires few { length tokens.now < 2 ^ 32 }
    requires over { IsOver text.now tokens.now }
    requires some { All (λ t. t.span.start < t.span.end) tokens.now }
    requires order { AllPairs (λ a b. a.span.end ≤ b.span.start) tokens.now }
    ensures { Gives text.now tokens.now result }
{
    let mut parser = Parser {
        text,
        tokens,
        at: 0,
        program: nothing_yet(alloc)?,
        names: this_alone(alloc)?,
        alloc,
    };
    parser.classes()?;
    Ok(parser.program.finish())
}

impl<'a> Parser<'a> {
    /// Adds a class.
    fn add_class(&mut self, class: ClassDecl) -> Result<(), ParseError>
        requires { ClassPlaced (length self.old.program.exprs) (length self.old.program.stmts) class }
        ensures pushed { PushesClass class self.old self.new result }
        ensures onward { Onward self.old self.new }
    {
        self.program.push_class(class)?;
        Ok(())
    }

    /// `class C { .. }`
    fn class(&mut self) -> Result<(), ParseError>
        requires { self.old.at < length self.old.tokens.now }
        ensures reads { ReadsClass self.old self.new result }
        ensures onward { Onward self.old self.new }
        ensures ahead { OnOk result (self.old.at < self.new.at) }
    {
        let _word = self.expect(TokenKind::Class)?;
        let token = self.expect(TokenKind::Name)?;
        let name = self.ident(token)?;
        let _opening = self.open(TokenKind::OpenBrace, 0)?;
        let class = self.members(name)?;
        self.add_class(class)
    }

    /// Classes, up to the end of the tokens
    pub fn classes(&mut self) -> Result<(), ParseError>
        ensures reads { ReadsClasses self.old self.new result }
        ensures onward { Onward self.old self.new }
    {
        'classes: while self.at < self.tokens.len() {
            self.class()?;
        }
        Ok(())
    }
}
