//! Where a run starts.

ghost use Rattle.std.specs.Prelude.{◌≡◌};
ghost use Rattle.perm_tree.specs.Lookup.{is_method_of, main_place, run_place};
ghost use Rattle.perm_tree.specs.Spelling.{is_word, run_word};
ghost use Rattle.perm_table.specs.Emission.{MainHas};

use perm_tree::list::is_word;
use perm_tree::program::Program;
use perm_tree::unit::MethodTable;

/// The place of the class `Main`.
fn main_place(program: &Program) -> usize
    ensures { result ≡ main_place program.now }
{
    let names = program.names();
    let classes = program.classes();
    classes
        .iter()
        .position(|class| is_word(names, b"Main", class.name.name))
        .unwrap_or(classes.len())
}

/// Whether a table is that of the method `Run` of a class.
fn is_run(program: &Program, class: usize, table: &MethodTable) -> bool
    ensures { result ≡ is_method_of program.now class (is_word program.now.names run_word) table.now }
{
    if table.class as usize != class {
        return false;
    }
    let Some(class) = program.classes().get(class) else {
        return false;
    };
    match class.methods.as_slice().get(table.method as usize) {
        Some(method) => is_word(program.names(), b"Run", method.name.name),
        None => false,
    }
}

/// The number of the method `Run` of the class `Main`.
pub fn run_place(program: &Program, tables: &[MethodTable]) -> usize
    ensures { result ≡ run_place (record { program = program.now; tables = tables.now }) }
{
    let main = main_place(program);
    tables
        .iter()
        .position(|table| is_run(program, main, table))
        .unwrap_or(tables.len())
}

/// How many fields the class `Main` has.
pub fn main_fields(program: &Program) -> usize
    ensures { MainHas program.now result }
{
    match program.classes().get(main_place(program)) {
        Some(class) => class.fields.len(),
        None => 0,
    }
}
