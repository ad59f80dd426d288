//! Programs whose names are resolved.

ghost use Rattle.std.specs.Prelude.{◌≡◌};
ghost use Rattle.perm_tree.specs.Links.{AreBodies};
ghost use Rattle.perm_tree.specs.Lookup.{class_place};
ghost use Rattle.perm_tree.specs.Nesting.{AllNested};
ghost use Rattle.perm_tree.specs.Resolves.{IsResolved, TakesNames};

use crate::ast::{Span, Ty};
use crate::bodies::Bodies;
use crate::list::{List, Name};
use crate::program::Program;
use indexmap::IndexMap;
use std::marker::Model;

/// A variable of a method. It is known at the names that begin in its scope.
#[derive(Clone, Copy, Debug)]
pub struct VarInfo {
    pub name: u32,
    pub ty: Ty,
    pub declared: Span,
    pub scope: Span,
}

/// The variables of a method, which is named by its place among those of its class: `this`, the parameters, the locals in text order.
#[derive(Debug, Drop)]
pub struct MethodTable {
    pub class: u32,
    pub method: u32,
    pub vars: List<VarInfo>,
}

/// A program with the tables and the bodies of its methods, in text order. The place of a table is the method's number.
#[derive(Debug, Drop)]
pub struct Unit {
    program: Program,
    classes: IndexMap<Name, u32>,
    tables: List<MethodTable>,
    bodies: Bodies,
}

impl Model for Unit {
    ghost use Rattle.perm_tree.specs.Links.{AreBodies};
    ghost use Rattle.perm_tree.specs.Resolves.{IsResolved, TakesNames};
    ghost use Rattle.perm_tree.specs.UnitTables.{Tables};

    ghost Value = { Tables };

    ghost view = { λ u. record { program = u.program; tables = u.tables } };

    ghost invariant = { λ u. IsResolved (record { program = u.program; tables = u.tables }) × TakesNames u.program u.classes.entries × AreBodies (record { program = u.program; tables = u.tables }) u.bodies };
}

impl Unit {
    pub fn new(
        program: Program,
        classes: IndexMap<Name, u32>,
        tables: List<MethodTable>,
        bodies: Bodies,
    ) -> Unit
        requires resolved { IsResolved (record { program = program; tables = tables }) }
        requires names { TakesNames program classes.entries }
        requires numbered { AreBodies (record { program = program; tables = tables }) bodies }
        ensures { result ≡ record { program = program; tables = tables } }
    {
        Unit {
            program,
            classes,
            tables,
            bodies,
        }
    }

    pub fn program(&self) -> &Program
        ensures { result.now ≡ self.now.program }
    {
        &self.program
    }

    /// What every unit keeps.
    pub fn resolved(&self)
        ensures resolved { IsResolved self.now }
        ensures nested { AllNested self.now.tables }
    {
        let _ = &self.program;
    }

    /// The number of the class with this name. A name that no class has gets the number of classes.
    pub fn class_place(&self, name: u32) -> usize
        ensures { result ≡ class_place self.now.program name }
    {
        let count = self.program.classes().len();
        let Some(word) = self.program.names().get(name as usize) else {
            return count;
        };
        match self.classes.get(word) {
            Some(place) => *place as usize,
            None => count,
        }
    }

    /// The bodies of the methods, in which every name is a number.
    pub fn bodies(&self) -> &Bodies
        ensures { AreBodies self.now result.now }
    {
        &self.bodies
    }

    pub fn tables(&self) -> &[MethodTable]
        ensures { result.now ≡ self.now.tables }
    {
        self.tables.as_slice()
    }
}

fn is_shared<T: Send + Sync>() {}

fn unit_is_shared() {
    is_shared::<Unit>();
}
