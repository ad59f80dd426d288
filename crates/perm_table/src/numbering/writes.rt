//! The sets of variables that statements assign or consume, and that blocks declare.

ghost use Rattle.std.specs.Prelude.{◌+◌, ◌≤◌, List, length, map, IfOk};
ghost use Rattle.perm_tree.specs.declared.bodies.Operation.{Operation};
ghost use Rattle.perm_tree.specs.BodyTerms.{argument_of, instruction_of, stretch};
ghost use Rattle.perm_tree.specs.Code.{Tie};
ghost use Rattle.perm_tree.specs.CodeNames.{own_vars, var_at};
ghost use Rattle.perm_tree.specs.Mentions.{argument_consumes, arguments_consume, just_if, just_option};
ghost use Rattle.perm_tree.specs.Places.{AllBelow};
ghost use Rattle.perm_tree.specs.Scopes.{declared_by};
ghost use Rattle.perm_tree.specs.VarSets.{member};
ghost use Rattle.perm_tree.specs.Vars.{just, minus, plus, those};
ghost use Rattle.perm_table.specs.Emission.{writes_of, Holds, IsCallIn};
ghost use Rattle.perm_table.specs.Numbering.{setting_of};

use crate::numbering::names::Names;
use crate::tables::declared_by;
use perm_tree::ast::StmtKind;
use perm_tree::bodies::{Action, Argument, Bodies, Invocation};
use perm_tree::errors::NoMemory;
use perm_tree::var_set::VarSet;

/// The set with one more variable. The number 256, which an unknown name may have, is in no set.
pub fn with(set: VarSet, x: u32) -> VarSet
    ensures { Holds result (plus (member set) (just x)) }
{
    match u8::try_from(x) {
        Ok(x) => set.insert(x),
        Err(_) => set,
    }
}

/// The set with the variable that an argument consumes.
fn with_consumed(set: VarSet, argument: Argument) -> VarSet
    ensures { (all : List Operation) → Holds result (plus (member set) (argument_consumes (argument_of all argument))) }
{
    match argument {
        Argument::Consume(y) => with(set, y),
        Argument::Expression(_) => set,
    }
}

/// The variables that some arguments consume.
fn consumed_in(arguments: &[Argument]) -> VarSet
    ensures { (all : List Operation) → Holds result (arguments_consume (map (argument_of all) arguments.now)) }
{
    let mut set = VarSet::new();
    'arguments: for argument in arguments {
        set = with_consumed(set, *argument);
    }
    set
}

/// The set with the variable that a call's result goes into.
fn with_result(set: VarSet, into: Option<u32>) -> VarSet
    ensures { Holds result (plus (member set) (just_option into)) }
{
    match into {
        Some(x) => with(set, x),
        None => set,
    }
}

/// The set with the receiver of a call, if it is consumed.
fn with_receiver(set: VarSet, consumed: bool, receiver: u32) -> VarSet
    ensures { Holds result (plus (member set) (just_if consumed receiver)) }
{
    if consumed { with(set, receiver) } else { set }
}

/// The variables that a call assigns or consumes.
fn written_by_call(arguments: &[Argument], call: Invocation) -> VarSet
    requires { call.first + call.count ≤ length arguments.now }
    ensures { (all : List Operation) → Holds result (plus (plus (just_if call.consumed call.receiver) (arguments_consume (map (argument_of all) (stretch arguments.now call.first call.count)))) (just_option call.into)) }
{
    let first = call.first as usize;
    let set = consumed_in(&arguments[first..first + call.count as usize]);
    with_result(with_receiver(set, call.consumed, call.receiver), call.into)
}

/// The variables that a simple statement assigns or consumes.
pub fn written_by(bodies: &Bodies, action: Action) -> VarSet
    requires { IsCallIn bodies.now action }
    ensures { (tie : Tie) → Holds result (writes_of (instruction_of bodies.now tie action)) }
{
    match action {
        Action::Assign(x, argument) => with(with_consumed(VarSet::new(), argument), x),
        Action::LoadField(x, _, _) => with(VarSet::new(), x),
        Action::LoadLength(x, _) => with(VarSet::new(), x),
        Action::LoadItem(x, _, _) => with(VarSet::new(), x),
        Action::TakeField(x, _, _) => with(VarSet::new(), x),
        Action::NewObject(x, _, _) => with(VarSet::new(), x),
        Action::NewArray(x, _) => with(VarSet::new(), x),
        Action::StoreField(_, _, argument) => with_consumed(VarSet::new(), argument),
        Action::Invoke(call) => written_by_call(bodies.arguments.as_slice(), call),
        _ => VarSet::new(),
    }
}

/// The set with the variable that a statement declares in its block.
fn with_declared(set: VarSet, names: &Names<'_>, kind: &StmtKind) -> Result<VarSet, NoMemory>
    ensures { IfOk result (λ more. Holds more (plus (member set) (those (map (λ d. var_at (setting_of names.now) d.name) (declared_by kind.now))))) }
{
    match declared_by(kind) {
        Some(decl) => Ok(with(set, names.variable(decl.name)?)),
        None => Ok(set),
    }
}

/// The variables that a block itself declares.
fn own_vars(names: &Names<'_>, below: usize, stmts: &[u32]) -> Result<VarSet, NoMemory>
    requires inside { AllBelow below stmts.now }
    requires below { below ≤ length names.now.tables.program.stmts }
    ensures { IfOk result (λ own. Holds own (those (own_vars (setting_of names.now) stmts.now))) }
{
    let mut set = VarSet::new();
    let all = names.program().stmts();
    'stmts: for at in stmts {
        set = with_declared(set, names, &all[*at as usize].kind)?;
    }
    Ok(set)
}

/// The variables of a set that a block doesn't declare itself.
pub fn outer(
    set: VarSet,
    names: &Names<'_>,
    below: usize,
    stmts: &[u32],
) -> Result<VarSet, NoMemory>
    requires inside { AllBelow below stmts.now }
    requires below { below ≤ length names.now.tables.program.stmts }
    ensures { IfOk result (λ rest. Holds rest (minus (member set) (those (own_vars (setting_of names.now) stmts.now)))) }
{
    let own = own_vars(names, below, stmts)?;
    Ok(set.difference(own))
}
