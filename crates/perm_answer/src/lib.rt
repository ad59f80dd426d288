//! The answers of the program, with their texts and statuses.
#![tactic(auto)]

ghost use Rattle.std.specs.Prelude.{◌≡◌, ◌≤◌, [], length, vec_capacity, IfOk};
ghost use Rattle.perm_answer.specs.Answers.{IsTold, status, text_of};

mod room;
#[cfg(test)]
mod tests;
mod text;
mod words;

use crate::room::room_of;
use crate::text::{append, append_line, append_placed, append_printed};
use crate::words::{lex_word, syntax_word, table_word, trap_word, type_word};
use perm_tree::errors::{LexError, NoMemory, ParseError, TableError, TrapKind, TypeError};
use perm_tree::list::Numbers;
use perm_tree::place::Place;
use std::alloc::Global;

/// The file that an answer speaks of.
#[derive(Clone, Copy, Debug, PartialEq, Eq)]
pub enum Which {
    Program,
    Input,
}

/// What a run has printed.
#[derive(Debug, Drop)]
pub struct RunText {
    pub printed: Numbers,
}

/// What a call comes to, but for a fault while it is written and want of memory. A refusal has the place at which it stands; that of `NoMain` isn't told. A trap has its place too. `Done` has the result of `Run`.
#[derive(Debug, Drop)]
pub enum Answer {
    Usage,
    ReadFault(Which),
    TooLong(Which),
    Lex(LexError, Place),
    Syntax(ParseError, Place),
    Table(TableError, Place),
    Typing(TypeError, Place),
    Done(i64, RunText),
    Trap(TrapKind, Place, RunText),
    OutOfTurns(RunText),
    HeapFull,
}

pub(crate) const USAGE: &str =
    "usage: permrun [--check] [--workers N] [--turns N] [--heap N] [--dump] [--stats] (PROGRAM [INPUT] | --make SIZE [--from N])\n";

/// An empty text with room for that of an answer.
pub fn text_room(alloc: Global, answer: &Answer) -> Result<Vec<u8>, NoMemory>
    requires told { IsTold answer.now }
    ensures empty { IfOk result (λ t. t.items ≡ []) }
    ensures room { IfOk result (λ t. length (text_of answer.now) ≤ vec_capacity t) }
{
    Ok(Vec::with_capacity(alloc, room_of(answer).ok_or(NoMemory)?)?)
}

/// Fills an empty text that has room for the answer's, without memory. docs/LANGUAGE.md lists the texts.
pub fn fill(text: &mut Vec<u8>, answer: &Answer)
    requires told { IsTold answer.now }
    requires empty { text.old.items ≡ [] }
    requires room { length (text_of answer.now) ≤ vec_capacity text.old }
    ensures { text.new.items ≡ text_of answer.now }
{
    match answer {
        Answer::Usage => append(text, USAGE.as_bytes()),
        Answer::ReadFault(Which::Program) => append(text, b"read fault program\n"),
        Answer::ReadFault(Which::Input) => append(text, b"read fault input\n"),
        Answer::TooLong(Which::Program) => append(text, b"too long program\n"),
        Answer::TooLong(Which::Input) => append(text, b"too long input\n"),
        Answer::Lex(error, place) => append_placed(text, "lex ", lex_word(error), *place),
        Answer::Syntax(error, place) => {
            append_placed(text, "syntax ", syntax_word(error), *place);
        }
        Answer::Table(TableError::NoMain, _) => append(text, b"table NoMain\n"),
        Answer::Table(error, place) => append_placed(text, "table ", table_word(error), *place),
        Answer::Typing(error, place) => {
            append_placed(text, "type ", type_word(error.kind), *place);
        }
        Answer::Done(returned, run) => {
            append_printed(text, run.printed.as_slice());
            append_line(text, "done ", returned);
        }
        Answer::Trap(kind, place, run) => {
            append_printed(text, run.printed.as_slice());
            append_placed(text, "trap ", trap_word(*kind), *place);
        }
        Answer::OutOfTurns(run) => {
            append_printed(text, run.printed.as_slice());
            append(text, b"out of turns\n");
        }
        Answer::HeapFull => append(text, b"heap full\n"),
    }
}

/// The status with which the program ends after an answer.
pub fn status_of(answer: &Answer) -> u8
    requires told { IsTold answer.now }
    ensures { result ≡ status answer.now }
{
    match answer {
        Answer::Usage => 2,
        Answer::ReadFault(_) => 3,
        Answer::TooLong(_) => 4,
        Answer::Lex(_, _) => 10,
        Answer::Syntax(_, _) => 11,
        Answer::Table(_, _) => 12,
        Answer::Typing(_, _) => 13,
        Answer::Done(_, _) => 0,
        Answer::Trap(_, _, _) => 20,
        Answer::OutOfTurns(_) => 21,
        Answer::HeapFull => 22,
    }
}
