//! The stack of the parts that are still to be written, the next one last. So the parts of a form are pushed from its end.

ghost use Rattle.std.specs.Prelude.{◌≡◌, [], ◌∷◌, OnOk};
ghost use Rattle.perm_tree.specs.Printer.Parts.{onto, args_tasks, block_tasks, call_tasks, more_args_tasks, more_params_tasks, params_tasks};

use crate::ast::{Arg, Block, Call, FieldDecl};
use crate::errors::NoMemory;
use crate::print::part::{Part, Word};

/// The first of these parts is the next to be written.
pub fn push_all(stack: &mut Vec<Part>, parts: &[Part]) -> Result<(), NoMemory>
    ensures { OnOk result (stack.new.items ≡ onto stack.old.items parts.now) }
{
    stack.extend(parts.iter().rev().copied())?;
    Ok(())
}

pub fn push(stack: &mut Vec<Part>, part: Part) -> Result<(), NoMemory>
    ensures { OnOk result (stack.new.items ≡ onto stack.old.items (part ∷ [])) }
{
    stack.push(part)?;
    Ok(())
}

/// Pushes all the statements of a block.
pub fn push_block(stack: &mut Vec<Part>, block: &Block, depth: usize) -> Result<(), NoMemory>
    ensures { OnOk result (stack.new.items ≡ onto stack.old.items (block_tasks depth block.now.stmts)) }
{
    let stmts = block.stmts.as_slice();
    stack.extend(stmts.iter().rev().map(|at| Part::Stmt(*at, depth)))?;
    Ok(())
}

fn push_more_args(stack: &mut Vec<Part>, args: &[Arg]) -> Result<(), NoMemory>
    ensures { OnOk result (stack.new.items ≡ onto stack.old.items (more_args_tasks args.now)) }
{
    let mut left = args;
    while let Some((last, before)) = left.split_last() {
        push_all(stack, &[Part::Word(Word::Comma), Part::Arg(*last)])?;
        left = before;
    }
    Ok(())
}

fn push_args(stack: &mut Vec<Part>, args: &[Arg]) -> Result<(), NoMemory>
    ensures { OnOk result (stack.new.items ≡ onto stack.old.items (args_tasks args.now)) }
{
    let Some((first, others)) = args.split_first() else {
        return Ok(());
    };
    push_more_args(stack, others)?;
    push(stack, Part::Arg(*first))
}

pub fn push_call(stack: &mut Vec<Part>, call: &Call) -> Result<(), NoMemory>
    ensures { OnOk result (stack.new.items ≡ onto stack.old.items (call_tasks call.now)) }
{
    push(stack, Part::Word(Word::Close))?;
    push_args(stack, call.args.as_slice())?;
    push_all(
        stack,
        &[
            Part::Receiver(call.consumed, call.on),
            Part::Word(Word::Dot),
            Part::Name(call.method),
            Part::Word(Word::Open),
        ],
    )
}

fn push_more_params(stack: &mut Vec<Part>, params: &[FieldDecl]) -> Result<(), NoMemory>
    ensures { OnOk result (stack.new.items ≡ onto stack.old.items (more_params_tasks params.now)) }
{
    let mut left = params;
    while let Some((last, before)) = left.split_last() {
        push_all(
            stack,
            &[Part::Word(Word::Comma), Part::Declared(last.ty, last.name)],
        )?;
        left = before;
    }
    Ok(())
}

pub fn push_params(stack: &mut Vec<Part>, params: &[FieldDecl]) -> Result<(), NoMemory>
    ensures { OnOk result (stack.new.items ≡ onto stack.old.items (params_tasks params.now)) }
{
    let Some((first, others)) = params.split_first() else {
        return Ok(());
    };
    push_more_params(stack, others)?;
    push(stack, Part::Declared(first.ty, first.name))
}
