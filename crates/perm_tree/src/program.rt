//! Programs, which are built from the inside out.

ghost use Rattle.std.specs.Prelude.{◌≡◌, ◌<◌, [], ◌∷◌, ◌++◌, length, map, slice_index, FitsSigned, IfOk, OnErr, OnOk};
ghost use mir.Syntax.{w64};
ghost use Rattle.perm_tree.specs.Places.{AllBelow, ClassPlaced, ExprBelow, IsPlaced, KindPlaced, LiteralFits};
ghost use Rattle.perm_tree.specs.Lows.{low_in, lows_of};
ghost use Rattle.perm_tree.specs.WellFormed.{IsOrderly, IsWellFormed};

use crate::ast::{ClassDecl, Expr, Ident, Stmt};
use crate::errors::NoMemory;
use crate::list::{List, Name};
use std::alloc::Global;
use std::marker::Model;

/// A program, as flat lists in which a statement or an expression is named by its place.
#[derive(Debug, Drop)]
pub struct Program {
    names: List<Name>,
    classes: List<ClassDecl>,
    stmts: List<Stmt>,
    exprs: List<Expr>,
    mentions: List<Ident>,
    lows: Vec<u32>,
}

impl Model for Program {
    ghost use Rattle.std.specs.Prelude.{◌≡◌};
    ghost use Rattle.perm_tree.specs.Places.{Listing};
    ghost use Rattle.perm_tree.specs.Lows.{lows_of};
    ghost use Rattle.perm_tree.specs.WellFormed.{IsWellFormed};

    ghost Value = { Listing };

    ghost view = { λ p. record { names = p.names; classes = p.classes; stmts = p.stmts; exprs = p.exprs; mentions = p.mentions } };

    ghost invariant = { λ p. IsWellFormed (record { names = p.names; classes = p.classes; stmts = p.stmts; exprs = p.exprs; mentions = p.mentions }) × (p.lows.items ≡ lows_of p.exprs) };
}

/// The parts of a program that name classes.
#[derive(Debug, Drop)]
pub struct Parts {
    pub classes: List<ClassDecl>,
    pub stmts: List<Stmt>,
    pub mentions: List<Ident>,
}

/// A program that is being built. Nothing is asked of its names and spans until it is finished.
#[derive(Debug, Drop)]
pub struct ProgramBuilder {
    names: List<Name>,
    classes: List<ClassDecl>,
    stmts: List<Stmt>,
    exprs: List<Expr>,
    mentions: List<Ident>,
    lows: Vec<u32>,
}

impl Model for ProgramBuilder {
    ghost use Rattle.std.specs.Prelude.{◌≡◌};
    ghost use Rattle.perm_tree.specs.Places.{Listing, IsPlaced};
    ghost use Rattle.perm_tree.specs.Lows.{lows_of};

    ghost Value = { Listing };

    ghost view = { λ p. record { names = p.names; classes = p.classes; stmts = p.stmts; exprs = p.exprs; mentions = p.mentions } };

    ghost invariant = { λ p. IsPlaced (record { names = p.names; classes = p.classes; stmts = p.stmts; exprs = p.exprs; mentions = p.mentions }) × (p.lows.items ≡ lows_of p.exprs) };
}

impl Program {
    /// What every program keeps.
    pub fn well_formed(&self)
        ensures { IsWellFormed self.now }
    {
        let _ = &self.names;
    }

    pub fn names(&self) -> &[Name]
        ensures { result.now ≡ self.now.names }
    {
        self.names.as_slice()
    }

    pub fn classes(&self) -> &[ClassDecl]
        ensures value { result.now ≡ self.now.classes }
        ensures placed { IsPlaced self.now }
        ensures named { AllBelow (length self.now.names) (map (λ c. c.name.name) self.now.classes) }
    {
        self.classes.as_slice()
    }

    /// The statements, an inner one before the one that holds it.
    pub fn stmts(&self) -> &[Stmt]
        ensures value { result.now ≡ self.now.stmts }
        ensures placed { IsPlaced self.now }
    {
        self.stmts.as_slice()
    }

    /// The expressions, an operand before its expression.
    pub fn exprs(&self) -> &[Expr]
        ensures value { result.now ≡ self.now.exprs }
        ensures placed { IsPlaced self.now }
    {
        self.exprs.as_slice()
    }

    /// The classes in types and after `new`, in text order. As in a type, the number is that of the class's name before names are resolved, and then that of the class. A type holds no span, so these are where an unknown class is found.
    pub fn mentions(&self) -> &[Ident]
        ensures { result.now ≡ self.now.mentions }
    {
        self.mentions.as_slice()
    }

    /// The first place of the expressions of which this one is made.
    pub fn low(&self, at: u32) -> u32
        requires { at < length self.now.exprs }
        ensures { result ≡ slice_index (lows_of self.now.exprs) at }
    {
        self.lows[at as usize]
    }

    /// Takes a program apart, into what names classes and a builder of the rest.
    pub fn into_parts(self, alloc: Global) -> (ProgramBuilder, Parts)
        ensures rest { result.0 ≡ record self { classes = []; stmts = []; mentions = [] } }
        ensures classes { result.1.classes ≡ self.classes }
        ensures stmts { result.1.stmts ≡ self.stmts }
        ensures mentions { result.1.mentions ≡ self.mentions }
        ensures formed { IsWellFormed self }
    {
        let Program {
            names,
            classes,
            stmts,
            exprs,
            mentions,
            lows,
        } = self;
        let rest = ProgramBuilder {
            names,
            classes: List::new(alloc),
            stmts: List::new(alloc),
            exprs,
            mentions: List::new(alloc),
            lows,
        };
        let parts = Parts {
            classes,
            stmts,
            mentions,
        };
        (rest, parts)
    }
}

impl ProgramBuilder {
    pub fn new(alloc: Global) -> ProgramBuilder
        ensures { result ≡ record { names = []; classes = []; stmts = []; exprs = []; mentions = [] } }
    {
        ProgramBuilder {
            names: List::new(alloc),
            classes: List::new(alloc),
            stmts: List::new(alloc),
            exprs: List::new(alloc),
            mentions: List::new(alloc),
            lows: Vec::new(alloc),
        }
    }

    /// Adds a name, and answers its number.
    pub fn push_name(&mut self, name: Name) -> Result<u32, NoMemory>
        ensures ok { IfOk result (λ at. (at ≡ length self.old.names) × (self.new ≡ record self.old { names = self.old.names ++ name ∷ [] })) }
        ensures err { OnErr result (self.new ≡ self.old) }
    {
        let at = place(self.names.len())?;
        self.names.push(name)?;
        Ok(at)
    }

    pub fn push_class(&mut self, class: ClassDecl) -> Result<u32, NoMemory>
        requires { ClassPlaced (length self.old.exprs) (length self.old.stmts) class }
        ensures ok { IfOk result (λ at. (at ≡ length self.old.classes) × (self.new ≡ record self.old { classes = self.old.classes ++ class ∷ [] })) }
        ensures err { OnErr result (self.new ≡ self.old) }
    {
        let at = place(self.classes.len())?;
        self.classes.push(class)?;
        Ok(at)
    }

    /// Adds a statement behind those that it holds, and answers its place.
    pub fn push_stmt(&mut self, stmt: Stmt) -> Result<u32, NoMemory>
        requires { KindPlaced (length self.old.exprs) (length self.old.stmts) stmt.kind }
        ensures ok { IfOk result (λ at. (at ≡ length self.old.stmts) × (self.new ≡ record self.old { stmts = self.old.stmts ++ stmt ∷ [] })) }
        ensures err { OnErr result (self.new ≡ self.old) }
    {
        let at = place(self.stmts.len())?;
        self.stmts.push(stmt)?;
        Ok(at)
    }

    /// Adds a class name that stands in a type or after `new`.
    pub fn push_mention(&mut self, name: Ident) -> Result<(), NoMemory>
        ensures ok { OnOk result (self.new ≡ record self.old { mentions = self.old.mentions ++ name ∷ [] }) }
        ensures err { OnErr result (self.new ≡ self.old) }
    {
        self.mentions.push(name)
    }

    /// Adds an expression behind its operands, and answers its place.
    pub fn push_expr(&mut self, expr: Expr) -> Result<u32, NoMemory>
        requires { ExprBelow (length self.old.exprs) expr }
        ensures ok { IfOk result (λ at. (at ≡ length self.old.exprs) × (self.new ≡ record self.old { exprs = self.old.exprs ++ expr ∷ [] })) }
        ensures err { OnErr result (self.new ≡ self.old) }
    {
        let at = place(self.exprs.len())?;
        literal(&expr);
        let low = low_among(self.lows.as_slice(), at, expr);
        self.lows.reserve(1)?;
        self.exprs.push(expr)?;
        self.lows.push(low).unwrap();
        Ok(at)
    }

    /// The builder with other parts. Takes no memory.
    pub fn with(self, parts: Parts) -> ProgramBuilder
        requires { IsPlaced (record self { classes = parts.classes; stmts = parts.stmts; mentions = parts.mentions }) }
        ensures { result ≡ record self { classes = parts.classes; stmts = parts.stmts; mentions = parts.mentions } }
    {
        let ProgramBuilder {
            names,
            exprs,
            lows,
            ..
        } = self;
        let Parts {
            classes,
            stmts,
            mentions,
        } = parts;
        ProgramBuilder {
            names,
            classes,
            stmts,
            exprs,
            mentions,
            lows,
        }
    }

    /// The program that was built. Takes no memory.
    pub fn finish(self) -> Program
        requires { IsOrderly self }
        ensures { result ≡ self }
    {
        let ProgramBuilder {
            names,
            classes,
            stmts,
            exprs,
            mentions,
            lows,
        } = self;
        Program {
            names,
            classes,
            stmts,
            exprs,
            mentions,
            lows,
        }
    }
}

/// The place behind so many elements. More than a place can name is more than memory is wanted for.
fn place(count: usize) -> Result<u32, NoMemory>
    ensures { IfOk result (λ at. at ≡ count) }
{
    u32::try_from(count).map_err(|_| NoMemory)
}

/// Tells the range of a number that stands in an expression.
fn literal(expr: &Expr)
    ensures { LiteralFits expr.now }
{
    if let Expr::Number(number) = expr {
        range(number);
    }
}

/// Tells the range of a number.
fn range(number: &i64)
    ensures { FitsSigned w64 number.now }
{
    let _number = *number;
}

/// The low of an expression behind those whose lows are given.
fn low_among(lows: &[u32], at: u32, expr: Expr) -> u32
    requires count { at ≡ length lows.now }
    requires below { ExprBelow at expr }
    ensures { result ≡ low_in lows.now expr }
{
    match expr {
        Expr::Unary(_, a) => lows[a as usize],
        Expr::Binary(_, a, b) => lows[a as usize].min(lows[b as usize]),
        _ => at,
    }
}
