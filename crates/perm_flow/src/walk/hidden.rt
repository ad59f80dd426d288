//! Which variables are hidden.

ghost use Rattle.std.specs.Prelude.{◌≡◌, ◌&&◌, [], nat_lt};
ghost use Rattle.perm_tree.specs.declared.ast.Stmt as stmts;
ghost use Rattle.perm_tree.specs.Blocks.{block_places, kind_blocks, rhs_blocks};
ghost use Rattle.perm_tree.specs.CodeNames.{listed_if, tied_before};
ghost use Rattle.perm_tree.specs.InBody.{all_within};
ghost use Rattle.perm_tree.specs.Scopes.{else_stmts};
ghost use Rattle.perm_tree.specs.VarSets.{member};
ghost use Rattle.perm_tree.specs.Vars.{just, plus, those};
ghost use Rattle.perm_rules.specs.AtPlace.{hidden_by, hides_of, rhs_hides};
ghost use Rattle.perm_flow.specs.Walk.{AreHolders, Holds, HoldsPlace};

use crate::types::is_tied;
use perm_rules::VarSet;
use perm_tree::ast::{Block, Rhs, Stmt, StmtKind};
use perm_tree::unit::VarInfo;

/// The set with one more number. No set holds 256 or more.
fn with_number(set: VarSet, x: usize) -> VarSet
    ensures { Holds result (plus (member set) (just x)) }
{
    match u8::try_from(x) {
        Ok(x) => set.insert(x),
        Err(_) => set,
    }
}

/// The set with one more number, where a test holds.
fn with_if(set: VarSet, test: bool, x: usize) -> VarSet
    ensures { Holds result (plus (member set) (those (listed_if test x []))) }
{
    if test { with_number(set, x) } else { set }
}

/// The readable and writable variables that are declared before a place.
pub fn tied_before(vars: &[VarInfo], end: u32) -> VarSet
    ensures { Holds result (those (tied_before end 0 vars.now)) }
{
    let mut set = VarSet::new();
    'vars: for at in 0..vars.len() {
        let declared = vars[at].declared.start < end;
        set = with_if(set, declared & is_tied(vars[at].ty), at);
    }
    set
}

/// The block holds the statement at a place.
fn is_in(block: &Block, at: usize) -> bool
    ensures { result ≡ those block.now.stmts at }
{
    'stmts: for stmt in block.stmts.as_slice() {
        if *stmt as usize == at {
            return true;
        }
    }
    false
}

/// The same of the block behind `else`.
fn is_in_else(block: &Option<Block>, at: usize) -> bool
    ensures { result ≡ those (else_stmts block.now) at }
{
    match block {
        Some(block) => is_in(block, at),
        None => false,
    }
}

/// The same of the block of a right side.
fn is_in_rhs(rhs: &Rhs, at: usize) -> bool
    ensures { result ≡ those (block_places (rhs_blocks rhs.now)) at }
{
    match rhs {
        Rhs::Recover(block, _, _) => is_in(block, at),
        _ => false,
    }
}

/// The same of the blocks of a statement.
fn holds(kind: &StmtKind, at: usize) -> bool
    ensures { result ≡ those (block_places (kind_blocks kind.now)) at }
{
    match kind {
        StmtKind::If(_, yes, no) => is_in(yes, at) | is_in_else(no, at),
        StmtKind::While(_, block) => is_in(block, at),
        StmtKind::Par(left, right) => is_in(left, at) | is_in(right, at),
        StmtKind::Assign(_, _, rhs) => is_in_rhs(rhs, at),
        _ => false,
    }
}

/// The place of the statement in whose block stands the one at a place, if there is one.
fn holder_of(stmts: &[Stmt], at: usize) -> Option<usize>
    ensures { HoldsPlace stmts.now at result }
{
    'stmts: for place in 0..stmts.len() {
        if holds(&stmts[place].kind, at) {
            return Some(place);
        }
    }
    None
}

/// What a right side hides in its block, if the statement's head ends here.
fn rhs_hides(vars: &[VarInfo], rhs: &Rhs, end: u32) -> VarSet
    ensures { (s : stmts.Stmt) → s.head.end ≡ end → Holds result (those (rhs_hides vars.now s rhs.now)) }
{
    match rhs {
        Rhs::Recover(_, _, _) => tied_before(vars, end),
        _ => VarSet::new(),
    }
}

/// What a statement hides in its blocks.
fn hides_of(vars: &[VarInfo], stmt: &Stmt) -> VarSet
    ensures { Holds result (those (hides_of vars.now stmt.now stmt.now.kind)) }
{
    match &stmt.kind {
        StmtKind::Assign(_, _, rhs) => rhs_hides(vars, rhs, stmt.head.end),
        _ => VarSet::new(),
    }
}

/// What is hidden at a place: what the statements round it hide, from the inside out.
pub fn hidden_at(vars: &[VarInfo], stmts: &[Stmt], at: usize) -> VarSet
    requires { AreHolders stmts.now }
    ensures { Holds result (those (hidden_by vars.now at (all_within stmts.now) stmts.now)) }
{
    match holder_of(stmts, at) {
        Some(place) => hides_of(vars, &stmts[place]).union(hidden_at(vars, stmts, place)),
        None => VarSet::new(),
    }
}
