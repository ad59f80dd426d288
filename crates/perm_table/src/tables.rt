//! The tables of the methods: their variables, each with its scope.

ghost use Rattle.std.specs.Prelude.{◌≡◌, ℕ, ◌<◌, [], ◌∷◌, ◌≤◌, ◌++◌, IfOk, OnOk, get_or, length, map, option_to_list, slice_get};
ghost use Rattle.perm_tree.specs.declared.ast.Method.{Method};
ghost use Rattle.perm_table.specs.Walks.{typed};
ghost use Rattle.perm_tree.specs.Places.{AllBelow, ElseBelow, KindPlaced, MethodPlaced, RhsPlaced};
ghost use Rattle.perm_tree.specs.Scopes.{all_inner, block_end, block_vars, braced_vars, class_tables, declared_by, else_stmts, inner_vars, known_until, method_vars, param_var, rhs_vars, tables_of, this_var};

use crate::numbers::number;
use perm_tree::ast::{
    Block, ClassDecl, FieldDecl, Ident, Method, Rhs, Shape, Span, Stmt, StmtKind, Ty,
};
use perm_tree::errors::NoMemory;
use perm_tree::list::List;
use perm_tree::program::Program;
use perm_tree::unit::{MethodTable, VarInfo};
use std::alloc::Global;

/// A variable that is known from its name to the end of its block.
fn known_until(end: u32, decl: FieldDecl) -> VarInfo
    ensures { result ≡ known_until end decl }
{
    VarInfo {
        name: decl.name.name,
        ty: decl.ty,
        declared: decl.name.span,
        scope: Span {
            start: decl.name.span.start,
            end,
        },
    }
}

/// A declaration whose type is written before it.
fn typed(ty: Option<Ty>, name: Ident) -> Option<FieldDecl>
    ensures { option_to_list result ≡ typed ty name }
{
    match ty {
        Some(ty) => Some(FieldDecl { ty, name }),
        None => None,
    }
}

/// What a statement declares in the block in which it stands.
pub fn declared_by(kind: &StmtKind) -> Option<FieldDecl>
    ensures { option_to_list result ≡ declared_by kind.now }
{
    match kind {
        StmtKind::Declare(ty, name) => Some(FieldDecl {
            ty: *ty,
            name: *name,
        }),
        StmtKind::Assign(ty, name, _) => typed(*ty, *name),
        _ => None,
    }
}

/// Adds the variable that a statement declares.
fn add_declared(kind: &StmtKind, end: u32, vars: &mut List<VarInfo>) -> Result<(), NoMemory>
    ensures { OnOk result (vars.new ≡ vars.old ++ map (known_until end) (declared_by kind.now)) }
{
    match declared_by(kind) {
        Some(decl) => vars.push(known_until(end, decl)),
        None => Ok(()),
    }
}

/// Where the last statement of a block ends.
fn block_end(stmts: &[Stmt], places: &[u32]) -> u32
    requires { AllBelow (length stmts.now) places.now }
    ensures { result ≡ block_end stmts.now 0 places.now }
{
    let mut end = 0;
    'places: for place in places {
        end = stmts[*place as usize].span.end;
    }
    end
}

/// Adds the variables of a block and of those within it.
#[cycle(walk)]
fn add_block(
    program: &Program,
    places: &[u32],
    below: usize,
    end: u32,
    vars: &mut List<VarInfo>,
) -> Result<(), NoMemory>
    requires inside { AllBelow below places.now }
    requires below { below ≤ length program.now.stmts }
    ensures { OnOk result (vars.new ≡ vars.old ++ block_vars program.now.stmts (all_inner program.now.stmts) end places.now) }
{
    'places: for place in places {
        let stmts = program.stmts();
        add_declared(&stmts[*place as usize].kind, end, vars)?;
        add_inner(program, *place as usize, vars)?;
    }
    Ok(())
}

/// Adds the variables of a block that ends with its last statement.
#[cycle(walk)]
fn add_braced(
    program: &Program,
    block: &Block,
    below: usize,
    vars: &mut List<VarInfo>,
) -> Result<(), NoMemory>
    requires inside { AllBelow below block.now.stmts }
    requires below { below ≤ length program.now.stmts }
    ensures { OnOk result (vars.new ≡ vars.old ++ braced_vars program.now.stmts (all_inner program.now.stmts) block.now.stmts) }
{
    let places = block.stmts.as_slice();
    let end = block_end(program.stmts(), places);
    add_block(program, places, below, end, vars)
}

/// Adds the variables of the block behind `else`.
#[cycle(walk)]
fn add_else(
    program: &Program,
    block: &Option<Block>,
    below: usize,
    vars: &mut List<VarInfo>,
) -> Result<(), NoMemory>
    requires inside { ElseBelow below block.now }
    requires below { below ≤ length program.now.stmts }
    ensures { OnOk result (vars.new ≡ vars.old ++ braced_vars program.now.stmts (all_inner program.now.stmts) (else_stmts block.now)) }
{
    match block {
        Some(block) => add_braced(program, block, below, vars),
        None => Ok(()),
    }
}

/// Adds the variables of a recover block.
#[cycle(walk)]
fn add_rhs(
    program: &Program,
    rhs: &Rhs,
    below: usize,
    vars: &mut List<VarInfo>,
) -> Result<(), NoMemory>
    requires inside { RhsPlaced (length program.now.exprs) below rhs.now }
    requires below { below ≤ length program.now.stmts }
    ensures { OnOk result (vars.new ≡ vars.old ++ rhs_vars program.now.stmts (all_inner program.now.stmts) rhs.now) }
{
    match rhs {
        Rhs::Recover(block, _, give) => {
            add_block(program, block.stmts.as_slice(), below, give.end, vars)
        }
        _ => Ok(()),
    }
}

/// Adds the variables of the blocks within a statement at a place.
#[cycle(walk)]
fn add_kind(
    program: &Program,
    kind: &StmtKind,
    at: usize,
    vars: &mut List<VarInfo>,
) -> Result<(), NoMemory>
    requires inside { KindPlaced (length program.now.exprs) at kind.now }
    requires at { at ≤ length program.now.stmts }
    ensures { OnOk result (vars.new ≡ vars.old ++ inner_vars program.now.stmts (all_inner program.now.stmts) kind.now) }
{
    match kind {
        StmtKind::Assign(_, _, rhs) => add_rhs(program, rhs, at, vars),
        StmtKind::If(_, yes, no) => {
            add_braced(program, yes, at, vars)?;
            add_else(program, no, at, vars)
        }
        StmtKind::While(_, body) => add_braced(program, body, at, vars),
        StmtKind::Par(left, right) => {
            add_braced(program, left, at, vars)?;
            add_braced(program, right, at, vars)
        }
        _ => Ok(()),
    }
}

/// The same of the statement at a place.
#[cycle(walk)]
fn add_inner(program: &Program, at: usize, vars: &mut List<VarInfo>) -> Result<(), NoMemory>
    requires { at < length program.now.stmts }
    ensures { OnOk result (vars.new ≡ vars.old ++ get_or (all_inner program.now.stmts) at []) }
{
    let stmts = program.stmts();
    add_kind(program, &stmts[at].kind, at, vars)
}

/// `this`, which stands in no declaration.
fn this_var(class: u32, method: &Method) -> VarInfo
    ensures { result ≡ this_var class method.now }
{
    let start = method.name.span.start;
    VarInfo {
        name: 0,
        ty: Ty::Ref(method.receiver, Shape::Class(class)),
        declared: Span { start, end: start },
        scope: Span {
            start,
            end: method.span.end,
        },
    }
}

fn param_var(method: &Method, param: FieldDecl) -> VarInfo
    ensures { result ≡ param_var method.now param }
{
    VarInfo {
        name: param.name.name,
        ty: param.ty,
        declared: param.name.span,
        scope: Span {
            start: method.name.span.start,
            end: method.span.end,
        },
    }
}

/// `this` and the parameters.
fn outer_vars(alloc: Global, class: u32, method: &Method) -> Result<List<VarInfo>, NoMemory>
    ensures { IfOk result (λ l. l ≡ this_var class method.now ∷ map (param_var method.now) method.now.params) }
{
    let mut vars = List::new(alloc);
    vars.push(this_var(class, method))?;
    'params: for param in method.params.as_slice() {
        vars.push(param_var(method, *param))?;
    }
    Ok(vars)
}

/// The variables of a method of a class.
fn method_vars(
    alloc: Global,
    program: &Program,
    class: u32,
    method: &Method,
) -> Result<List<VarInfo>, NoMemory>
    requires { MethodPlaced (length program.now.exprs) (length program.now.stmts) method.now }
    ensures { IfOk result (λ l. l ≡ method_vars program.now.stmts (all_inner program.now.stmts) class method.now) }
{
    let mut vars = outer_vars(alloc, class, method)?;
    let all = program.stmts().len();
    let places = method.body.stmts.as_slice();
    add_block(program, places, all, method.span.end, &mut vars)?;
    Ok(vars)
}

/// Adds the tables of the methods of a class.
fn add_class(
    alloc: Global,
    program: &Program,
    class: u32,
    methods: &[Method],
    tables: &mut List<MethodTable>,
) -> Result<(), NoMemory>
    requires { (m : ℕ) (d : Method) → slice_get methods.now m ≡ Some d → MethodPlaced (length program.now.exprs) (length program.now.stmts) d }
    ensures { OnOk result (tables.new ≡ tables.old ++ class_tables program.now.stmts (all_inner program.now.stmts) class 0 methods.now) }
{
    'methods: for at in 0..methods.len() {
        let vars = method_vars(alloc, program, class, &methods[at])?;
        let method = number(at)?;
        tables.push(MethodTable {
            class,
            method,
            vars,
        })?;
    }
    Ok(())
}

/// The tables of all methods of a program.
pub fn tables_of(alloc: Global, program: &Program) -> Result<List<MethodTable>, NoMemory>
    ensures { IfOk result (λ l. l ≡ tables_of program.now) }
{
    let mut tables = List::new(alloc);
    let classes = program.classes();
    'classes: for at in 0..classes.len() {
        let class = number(at)?;
        let methods = classes[at].methods.as_slice();
        add_class(alloc, program, class, methods, &mut tables)?;
    }
    Ok(tables)
}
