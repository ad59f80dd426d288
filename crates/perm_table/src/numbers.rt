//! Class names in types become the numbers of the classes.

ghost use Rattle.std.specs.Prelude.{◌≡◌, ℕ, IfOk, length, map, nat_eq};
ghost use Rattle.std.specs.List.{position_or_len};
ghost use Rattle.perm_tree.specs.Resolves.{renamed_class, renamed_decl, renamed_kind, renamed_mention, renamed_method, renamed_shape, renamed_stmt, renamed_ty};
ghost use Rattle.perm_table.specs.Numbers.{knows_in, number_in};

use indexmap::IndexMap;
use perm_tree::ast::{ClassDecl, FieldDecl, Ident, Method, Shape, Stmt, StmtKind, Ty};
use perm_tree::errors::NoMemory;
use perm_tree::list::List;
use perm_tree::program::Parts;
use std::alloc::Global;

/// The numbers of classes, by the numbers of their names. A name that no class has gets the number of classes.
#[derive(Drop)]
pub struct ClassNumbers {
    places: IndexMap<u32, u32>,
    count: u32,
}

impl ClassNumbers {
    pub fn new(alloc: Global, classes: &[ClassDecl]) -> Result<ClassNumbers, NoMemory>
        ensures places { IfOk result (λ n. (name : ℕ) → number_in n name ≡ position_or_len (λ c. nat_eq c.name.name name) classes.now) }
        ensures count { IfOk result (λ n. n.count ≡ length classes.now) }
    {
        let count = number(classes.len())?;
        let mut places = IndexMap::new(alloc);
        'places: for at in (0..count).rev() {
            places.insert(classes[at as usize].name.name, at)?;
        }
        Ok(ClassNumbers { places, count })
    }

    /// The number of the class with this name.
    pub fn number(&self, name: u32) -> u32
        ensures { result ≡ number_in self.now name }
    {
        match self.places.get(&name) {
            Some(place) => *place,
            None => self.count,
        }
    }

    /// Whether some class has this name.
    pub fn knows(&self, name: u32) -> bool
        ensures { result ≡ knows_in self.now name }
    {
        self.number(name) < self.count
    }

    fn shape(&self, shape: Shape) -> Shape
        ensures { result ≡ renamed_shape (number_in self.now) shape }
    {
        match shape {
            Shape::Class(name) => Shape::Class(self.number(name)),
            Shape::Array => Shape::Array,
        }
    }

    fn ty(&self, ty: Ty) -> Ty
        ensures { result ≡ renamed_ty (number_in self.now) ty }
    {
        match ty {
            Ty::Ref(perm, shape) => Ty::Ref(perm, self.shape(shape)),
            Ty::Long => Ty::Long,
            Ty::Bool => Ty::Bool,
        }
    }

    fn decl(&self, decl: FieldDecl) -> FieldDecl
        ensures { result ≡ renamed_decl (number_in self.now) decl }
    {
        FieldDecl {
            ty: self.ty(decl.ty),
            name: decl.name,
        }
    }

    fn decls(&self, alloc: Global, decls: List<FieldDecl>) -> Result<List<FieldDecl>, NoMemory>
        ensures { IfOk result (λ l. l ≡ map (renamed_decl (number_in self.now)) decls) }
    {
        let renamed = decls
            .into_vec()
            .into_iter()
            .map(|decl| self.decl(decl))
            .collect(alloc)?;
        Ok(List::from_vec(renamed))
    }

    fn method(&self, alloc: Global, method: Method) -> Result<Method, NoMemory>
        ensures { IfOk result (λ d. d ≡ renamed_method (number_in self.now) method) }
    {
        let Method {
            result,
            name,
            params,
            receiver,
            body,
            back,
            span,
        } = method;
        let params = self.decls(alloc, params)?;
        Ok(Method {
            result: self.ty(result),
            name,
            params,
            receiver,
            body,
            back,
            span,
        })
    }

    fn methods(&self, alloc: Global, methods: List<Method>) -> Result<List<Method>, NoMemory>
        ensures { IfOk result (λ l. l ≡ map (renamed_method (number_in self.now)) methods) }
    {
        let mut renamed = List::new(alloc);
        'methods: for method in methods.into_vec() {
            renamed.push(self.method(alloc, method)?)?;
        }
        Ok(renamed)
    }

    fn class(&self, alloc: Global, class: ClassDecl) -> Result<ClassDecl, NoMemory>
        ensures { IfOk result (λ c. c ≡ renamed_class (number_in self.now) class) }
    {
        let ClassDecl {
            name,
            fields,
            methods,
        } = class;
        let fields = self.decls(alloc, fields)?;
        let methods = self.methods(alloc, methods)?;
        Ok(ClassDecl {
            name,
            fields,
            methods,
        })
    }

    fn classes(&self, alloc: Global, classes: List<ClassDecl>) -> Result<List<ClassDecl>, NoMemory>
        ensures { IfOk result (λ l. l ≡ map (renamed_class (number_in self.now)) classes) }
    {
        let mut renamed = List::new(alloc);
        'classes: for class in classes.into_vec() {
            renamed.push(self.class(alloc, class)?)?;
        }
        Ok(renamed)
    }

    fn kind(&self, kind: StmtKind) -> StmtKind
        ensures { result ≡ renamed_kind (number_in self.now) kind }
    {
        match kind {
            StmtKind::Declare(ty, x) => StmtKind::Declare(self.ty(ty), x),
            StmtKind::Assign(ty, x, rhs) => StmtKind::Assign(ty.map(|t| self.ty(t)), x, rhs),
            other => other,
        }
    }

    fn stmt(&self, stmt: Stmt) -> Stmt
        ensures { result ≡ renamed_stmt (number_in self.now) stmt }
    {
        Stmt {
            span: stmt.span,
            head: stmt.head,
            kind: self.kind(stmt.kind),
        }
    }

    fn stmts(&self, alloc: Global, stmts: List<Stmt>) -> Result<List<Stmt>, NoMemory>
        ensures { IfOk result (λ l. l ≡ map (renamed_stmt (number_in self.now)) stmts) }
    {
        let renamed = stmts
            .into_vec()
            .into_iter()
            .map(|stmt| self.stmt(stmt))
            .collect(alloc)?;
        Ok(List::from_vec(renamed))
    }

    fn mentions(&self, alloc: Global, mentions: List<Ident>) -> Result<List<Ident>, NoMemory>
        ensures { IfOk result (λ l. l ≡ map (renamed_mention (number_in self.now)) mentions) }
    {
        let renamed = mentions
            .into_vec()
            .into_iter()
            .map(|mention| Ident {
                name: self.number(mention.name),
                span: mention.span,
            })
            .collect(alloc)?;
        Ok(List::from_vec(renamed))
    }

    /// The parts of a program with the numbers of classes for their names.
    pub fn parts(&self, alloc: Global, parts: Parts) -> Result<Parts, NoMemory>
        ensures classes { IfOk result (λ r. r.classes ≡ map (renamed_class (number_in self.now)) parts.classes) }
        ensures stmts { IfOk result (λ r. r.stmts ≡ map (renamed_stmt (number_in self.now)) parts.stmts) }
        ensures mentions { IfOk result (λ r. r.mentions ≡ map (renamed_mention (number_in self.now)) parts.mentions) }
    {
        let Parts {
            classes,
            stmts,
            mentions,
        } = parts;
        Ok(Parts {
            classes: self.classes(alloc, classes)?,
            stmts: self.stmts(alloc, stmts)?,
            mentions: self.mentions(alloc, mentions)?,
        })
    }
}

/// A count as a number. More than a number can tell is more than memory is wanted for.
pub fn number(count: usize) -> Result<u32, NoMemory>
    ensures { IfOk result (λ n. n ≡ count) }
{
    u32::try_from(count).map_err(|_| NoMemory)
}
