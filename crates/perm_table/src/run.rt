//! The class `Main` and its method `Run`.

ghost use Rattle.std.specs.Prelude.{◌≡◌, find, option_copied};
ghost use Rattle.perm_tree.specs.Names.{is_good_run, is_input, is_long, is_writable, main_run, run_refusal, takes_input};
ghost use Rattle.perm_tree.specs.Spelling.{is_word, main_word, run_word};
ghost use Rattle.perm_table.specs.Runs.{is_array, is_immutable, main_refusal};

use perm_tree::ast::{ClassDecl, FieldDecl, Method, Perm, Shape, Ty};
use perm_tree::errors::TableError;
use perm_tree::list::{Name, is_word};
use perm_tree::program::Program;

fn is_array(shape: Shape) -> bool
    ensures { result ≡ is_array shape }
{
    match shape {
        Shape::Array => true,
        Shape::Class(_) => false,
    }
}

fn is_immutable(perm: Perm) -> bool
    ensures { result ≡ is_immutable perm }
{
    match perm {
        Perm::Immutable => true,
        _ => false,
    }
}

fn is_writable(perm: Perm) -> bool
    ensures { result ≡ is_writable perm }
{
    match perm {
        Perm::Writable => true,
        _ => false,
    }
}

fn is_long(ty: Ty) -> bool
    ensures { result ≡ is_long ty }
{
    match ty {
        Ty::Long => true,
        _ => false,
    }
}

/// Whether the type is `immutable long[]`.
fn is_input(ty: Ty) -> bool
    ensures { result ≡ is_input ty }
{
    match ty {
        Ty::Ref(perm, shape) => is_immutable(perm) & is_array(shape),
        _ => false,
    }
}

fn takes_input(params: &[FieldDecl]) -> bool
    ensures { result ≡ takes_input params.now }
{
    match params {
        [param] => is_input(param.ty),
        _ => false,
    }
}

fn is_good_run(method: &Method) -> bool
    ensures { result ≡ is_good_run method.now }
{
    is_long(method.result) & (takes_input(method.params.as_slice()) & is_writable(method.receiver))
}

/// The method `Run` among those of a class.
fn run_among<'a>(names: &[Name], methods: &'a [Method]) -> Option<&'a Method>
    ensures { option_copied result ≡ find (λ d. is_word names.now run_word d.name.name) methods.now }
{
    methods
        .iter()
        .find(|method| is_word(names, b"Run", method.name.name))
}

/// The class `Main` among some classes.
fn main_among<'a>(names: &[Name], classes: &'a [ClassDecl]) -> Option<&'a ClassDecl>
    ensures { option_copied result ≡ find (λ c. is_word names.now main_word c.name.name) classes.now }
{
    classes
        .iter()
        .find(|class| is_word(names, b"Main", class.name.name))
}

/// What is refused of a method `Run`.
fn method_refusal(found: Option<&Method>) -> Option<TableError>
    ensures { result ≡ run_refusal (option_copied found.entry) }
{
    let Some(run) = found else {
        return Some(TableError::NoMain);
    };
    if is_good_run(run) {
        return None;
    }
    Some(TableError::BadMain {
        span: run.name.span,
    })
}

/// What is refused of a class `Main`.
fn class_refusal(names: &[Name], found: Option<&ClassDecl>) -> Option<TableError>
    ensures { result ≡ main_refusal names.now (option_copied found.entry) }
{
    let Some(class) = found else {
        return Some(TableError::NoMain);
    };
    method_refusal(run_among(names, class.methods.as_slice()))
}

/// What is refused of `Main` and its `Run`.
pub fn run_refusal(program: &Program) -> Option<TableError>
    ensures { result ≡ run_refusal (main_run program.now) }
{
    let names = program.names();
    class_refusal(names, main_among(names, program.classes()))
}
