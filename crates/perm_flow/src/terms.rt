//! What is told of an expression by a walk over its operations: a loop along left operands, and a call for each right one.

ghost use Rattle.std.specs.Prelude.{◌≡◌, ◌||◌, length, List};
ghost use Rattle.perm_tree.specs.BodyTerms.{expression_term, operand_term, operation_term, operation_terms, AreOrdered, IsExpressionIn, IsOperandBelow};
ghost use Rattle.perm_tree.specs.Code.{Term, Local};
ghost use Rattle.perm_rules.specs.MethodBodies.{context_of};
ghost use Rattle.perm_rules.specs.Parts.{Context};
ghost use Rattle.perm_rules.specs.Permissions.{is_equality};
ghost use Rattle.perm_rules.specs.Sorts.{is_null_test, isnt_plain, operands_misfit, term_sort};
ghost use Rattle.perm_flow.specs.Questions.{as_sort, binary_answer, is_beside_null, is_null, is_passed_over, passes, answer, unary_answer};

use crate::sets::holds;
use crate::sorts::{
    Sort, arent_comparable, binary_type, isnt_plain, may_be_reference, sort_if, unary_type,
};
use crate::types::has_isolated;
use perm_rules::{MethodBody, VarSet};
use perm_tree::ast::{BinaryOp, Ty, UnaryOp};
use perm_tree::bodies::{Expression, Operand, Operation};

/// A test of variables: not known, not among the live ones, or among the hidden ones.
#[derive(Clone, Copy, Debug)]
pub enum Test {
    Unknown,
    Gone(VarSet),
    Hidden(VarSet),
}

/// What may be asked: that some variable passes a test, that operands don't fit their operator, or that an isolated variable stands as a value.
#[derive(Clone, Copy, Debug)]
pub enum Question {
    Any(Test),
    Wrong,
    Needs,
}

/// The variable passes a test.
pub fn passes(body: &MethodBody<'_>, test: Test, x: u32) -> bool
    ensures { result ≡ passes (context_of body.now) test x }
{
    match test {
        Test::Unknown => body.ty(x).is_none(),
        Test::Gone(live) => !holds(live, x),
        Test::Hidden(hidden) => holds(hidden, x),
    }
}

/// The answer for an expression.
pub fn answer(body: &MethodBody<'_>, question: Question, expression: &Expression) -> bool
    requires { IsExpressionIn body.now.bodies.operations expression.now }
    ensures { result ≡ answer (context_of body.now) question (expression_term body.now.bodies.operations expression.now) }
{
    match expression {
        Expression::Operand(a) => operand_answer(body, question, &[], *a),
        Expression::Operation(o) => operand_answer(body, question, &[*o], Operand::Earlier(0)),
        Expression::Operations(first, count) => {
            let run = &body.operations()[*first as usize..*first as usize + *count as usize];
            operand_answer(body, question, run, Operand::Earlier(*count - 1))
        }
    }
}

/// What is known of the value of an expression.
pub fn sort_of(body: &MethodBody<'_>, expression: &Expression) -> Sort
    requires { IsExpressionIn body.now.bodies.operations expression.now }
    ensures { as_sort result ≡ term_sort (context_of body.now) (expression_term body.now.bodies.operations expression.now) }
{
    match expression {
        Expression::Operand(a) => operand_sort(body, &[], *a),
        Expression::Operation(o) => operation_sort(o),
        Expression::Operations(first, count) => {
            let run = &body.operations()[*first as usize..*first as usize + *count as usize];
            operand_sort(body, run, Operand::Earlier(*count - 1))
        }
    }
}

// ---------- operands ----------

fn operand_answer(
    body: &MethodBody<'_>,
    question: Question,
    run: &[Operation],
    operand: Operand,
) -> bool
    requires ordered { AreOrdered run.now }
    requires below { IsOperandBelow (length run.now) operand }
    ensures { result ≡ answer (context_of body.now) question (operand_term (operation_terms run.now) operand) }
{
    let mut found = false;
    let mut left = operand;
    while let Operand::Earlier(i) = left {
        match run[i as usize] {
            Operation::Unary(op, a) => {
                found |= unary_answer(body, question, run, op, a);
                left = a;
            }
            Operation::Binary(op, a, b) => {
                if is_passed_over(body, question, run, op, a, b) {
                    return found;
                }
                found |= binary_answer(body, question, run, op, a, b);
                found |= operand_answer(body, question, run, b);
                left = a;
            }
        }
    }
    found | leaf_answer(body, question, left)
}

fn leaf_answer(body: &MethodBody<'_>, question: Question, leaf: Operand) -> bool
    requires { IsOperandBelow 0 leaf }
    ensures { (terms : List Term) → result ≡ answer (context_of body.now) question (operand_term terms leaf) }
{
    match leaf {
        Operand::Local(x) => local_answer(body, question, x),
        Operand::Number(_) => false,
        Operand::Bool(_) => false,
        Operand::Null => false,
        Operand::Earlier(_) => false,
    }
}

fn local_answer(body: &MethodBody<'_>, question: Question, x: u32) -> bool
    ensures { result ≡ answer (context_of body.now) question (Local x) }
{
    match question {
        Question::Any(test) => passes(body, test, x),
        Question::Wrong => false,
        Question::Needs => has_isolated(body.ty(x)),
    }
}

fn operand_sort(body: &MethodBody<'_>, run: &[Operation], operand: Operand) -> Sort
    requires ordered { AreOrdered run.now }
    requires below { IsOperandBelow (length run.now) operand }
    ensures { as_sort result ≡ term_sort (context_of body.now) (operand_term (operation_terms run.now) operand) }
{
    match operand {
        Operand::Number(_) => Sort::Typed(Ty::Long),
        Operand::Bool(_) => Sort::Typed(Ty::Bool),
        Operand::Null => Sort::Null,
        Operand::Local(x) => sort_if(body.ty(x)),
        Operand::Earlier(i) => operation_sort(&run[i as usize]),
    }
}

fn operation_sort(operation: &Operation) -> Sort
    ensures { (c : Context) (terms : List Term) → as_sort result ≡ term_sort c (operation_term terms operation.now) }
{
    match operation {
        Operation::Unary(op, _) => Sort::Typed(unary_type(*op)),
        Operation::Binary(op, _, _) => Sort::Typed(binary_type(*op)),
    }
}

// ---------- operators ----------

fn unary_answer(
    body: &MethodBody<'_>,
    question: Question,
    run: &[Operation],
    op: UnaryOp,
    a: Operand,
) -> bool
    requires ordered { AreOrdered run.now }
    requires below { IsOperandBelow (length run.now) a }
    ensures { result ≡ unary_answer (context_of body.now) question op (operand_term (operation_terms run.now) a) }
{
    match question {
        Question::Wrong => isnt_plain(operand_sort(body, run, a), unary_type(op)),
        Question::Any(_) => false,
        Question::Needs => false,
    }
}

fn binary_answer(
    body: &MethodBody<'_>,
    question: Question,
    run: &[Operation],
    op: BinaryOp,
    a: Operand,
    b: Operand,
) -> bool
    requires ordered { AreOrdered run.now }
    requires left { IsOperandBelow (length run.now) a }
    requires right { IsOperandBelow (length run.now) b }
    ensures { result ≡ binary_answer (context_of body.now) question op (operand_term (operation_terms run.now) a) (operand_term (operation_terms run.now) b) }
{
    match question {
        Question::Wrong => operands_misfit(body, run, op, a, b),
        Question::Any(_) => false,
        Question::Needs => false,
    }
}

fn operands_misfit(
    body: &MethodBody<'_>,
    run: &[Operation],
    op: BinaryOp,
    a: Operand,
    b: Operand,
) -> bool
    requires ordered { AreOrdered run.now }
    requires left { IsOperandBelow (length run.now) a }
    requires right { IsOperandBelow (length run.now) b }
    ensures { result ≡ operands_misfit (context_of body.now) op (operand_term (operation_terms run.now) a) (operand_term (operation_terms run.now) b) }
{
    let s = operand_sort(body, run, a);
    let t = operand_sort(body, run, b);
    match op {
        BinaryOp::And | BinaryOp::Or => arent_plain(s, t, Ty::Bool),
        BinaryOp::Equal | BinaryOp::Differs => !is_null_test(body, run, a, b)
            & arent_comparable(s, t),
        _ => arent_plain(s, t, Ty::Long),
    }
}

fn arent_plain(s: Sort, t: Sort, ty: Ty) -> bool
    ensures { result ≡ (isnt_plain (as_sort s) ty || isnt_plain (as_sort t) ty) }
{
    isnt_plain(s, ty) | isnt_plain(t, ty)
}

fn is_passed_over(
    body: &MethodBody<'_>,
    question: Question,
    run: &[Operation],
    op: BinaryOp,
    a: Operand,
    b: Operand,
) -> bool
    requires ordered { AreOrdered run.now }
    requires left { IsOperandBelow (length run.now) a }
    requires right { IsOperandBelow (length run.now) b }
    ensures { result ≡ is_passed_over (context_of body.now) question op (operand_term (operation_terms run.now) a) (operand_term (operation_terms run.now) b) }
{
    match question {
        Question::Needs => is_equality(op) & is_null_test(body, run, a, b),
        Question::Any(_) => false,
        Question::Wrong => false,
    }
}

fn is_equality(op: BinaryOp) -> bool
    ensures { result ≡ is_equality op }
{
    matches!(op, BinaryOp::Equal | BinaryOp::Differs)
}

// ---------- tests against null ----------

fn is_null_test(body: &MethodBody<'_>, run: &[Operation], a: Operand, b: Operand) -> bool
    requires ordered { AreOrdered run.now }
    requires left { IsOperandBelow (length run.now) a }
    requires right { IsOperandBelow (length run.now) b }
    ensures { result ≡ is_null_test (context_of body.now) (operand_term (operation_terms run.now) a) (operand_term (operation_terms run.now) b) }
{
    is_beside_null(body, run, a, b) | is_beside_null(body, run, b, a)
}

/// The first operand is a variable that may be a reference, and the other is null.
fn is_beside_null(body: &MethodBody<'_>, run: &[Operation], a: Operand, b: Operand) -> bool
    requires ordered { AreOrdered run.now }
    requires below { IsOperandBelow (length run.now) b }
    ensures { result ≡ is_beside_null (context_of body.now) (operand_term (operation_terms run.now) a) (operand_term (operation_terms run.now) b) }
{
    match a {
        Operand::Local(x) => is_null(run, b) & may_be_reference(body.ty(x)),
        Operand::Number(_) => false,
        Operand::Bool(_) => false,
        Operand::Null => false,
        Operand::Earlier(_) => false,
    }
}

fn is_null(run: &[Operation], operand: Operand) -> bool
    requires ordered { AreOrdered run.now }
    requires below { IsOperandBelow (length run.now) operand }
    ensures { result ≡ is_null (operand_term (operation_terms run.now) operand) }
{
    match operand {
        Operand::Null => true,
        Operand::Number(_) => false,
        Operand::Bool(_) => false,
        Operand::Local(_) => false,
        Operand::Earlier(_) => false,
    }
}
